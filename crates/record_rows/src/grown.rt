// What comes of rows that are added to an empty side. A cell of R takes 28 bytes, one of C 24, and one of G 20.
ghost use Rattle.std.specs.Prelude.{◌≡◌, ◌<◌, ◌≤◌, false, length};

use crate::{Side, append, child, first_root, insert, load, root, twin, walk};
use hal_base::{Bytes, Ilk, PageFault};
use hal_schema::{Row, Schema};
use memory_shelf::QuietShelf;
use record_tree::{HomedRow, Place};
use std::alloc::Global;

const AS_ROOT: Place = Place {
    parent: None,
    prior: None,
};

fn below(parent: u32) -> Place {
    Place {
        parent: Some(parent),
        prior: None,
    }
}

fn behind(parent: u32, prior: u32) -> Place {
    Place {
        parent: Some(parent),
        prior: Some(prior),
    }
}

/// Inserts six rows: R of key 007 with three C, of which the second comes first, a G below the first, and R of key 001.
fn inserts_rows(alloc: Global, shelf: &mut QuietShelf, schema: &Schema) -> bool
    requires some { 0 < length schema.now.parts }
    requires phidam { schema.now.phdam ≡ false }
{
    insert(alloc, shelf, schema, AS_ROOT, 1, b"007bb") == Ok(16)
        && insert(alloc, shelf, schema, below(16), 2, b"02yy") == Ok(44)
        && insert(alloc, shelf, schema, below(16), 2, b"01xx") == Ok(68)
        && insert(alloc, shelf, schema, behind(16, 44), 2, b"03zz") == Ok(92)
        && insert(alloc, shelf, schema, below(44), 3, b"gg") == Ok(116)
        && insert(alloc, shelf, schema, AS_ROOT, 1, b"001aa") == Ok(136)
}

/// They are found from one another.
pub fn grows_levels(alloc: Global, shelf: &mut QuietShelf, schema: &Schema) -> bool
    requires some { 0 < length schema.now.parts }
    requires phidam { schema.now.phdam ≡ false }
    requires types { 3 ≤ length schema.now.types }
{
    inserts_rows(alloc, shelf, schema)
        && child(alloc, shelf, schema, 16, 2) == Ok(Some(68))
        && twin(alloc, shelf, schema, 68) == Ok(Some(44))
        && twin(alloc, shelf, schema, 44) == Ok(Some(92))
        && twin(alloc, shelf, schema, 92) == Ok(None)
        && child(alloc, shelf, schema, 44, 3) == Ok(Some(116))
        && first_root(alloc, shelf, schema) == Ok(Some(136))
        && root(alloc, shelf, schema, b"007") == Ok(Some(16))
}

/// Whether a row has this home, this code, and a parent of this home.
fn is_at(row: &HomedRow, home: u32, code: u8, parent: Option<u32>) -> bool {
    let above = match &row.row.parent {
        Some(name) => Some(name.addr),
        None => None,
    };
    row.home == home && row.row.code == code && above == parent
}

/// All six are walked in hierarchic sequence.
pub fn walks_levels(alloc: Global, shelf: &mut QuietShelf, schema: &Schema) -> bool
    requires some { 0 < length schema.now.parts }
    requires phidam { schema.now.phdam ≡ false }
{
    let Ok(rows) = walk(alloc, shelf, schema) else {
        return false;
    };
    match rows.as_slice() {
        [first, second, a, b, below, c] => {
            is_at(first, 136, 1, None)
                && is_at(second, 16, 1, None)
                && is_at(a, 68, 2, Some(16))
                && is_at(b, 44, 2, Some(16))
                && is_at(below, 116, 3, Some(44))
                && is_at(c, 92, 2, Some(16))
        }
        _ => false,
    }
}

/// Loads R and 300 C below it, and counts these by their twins.
pub fn grows_twins(alloc: Global, shelf: &mut QuietShelf, schema: &Schema) -> Result<u32, PageFault>
    requires some { 0 < length schema.now.parts }
    requires phidam { schema.now.phdam ≡ false }
    requires types { 3 ≤ length schema.now.types }
{
    let parent = load(alloc, shelf, schema, AS_ROOT, 1, b"001aa")?;
    let mut prior = None;
    for i in 0..300u32 {
        let content = [(i / 256) as u8, (i % 256) as u8, b'c', b'c'];
        let place = Place {
            parent: Some(parent),
            prior,
        };
        prior = Some(load(alloc, shelf, schema, place, 2, &content)?);
    }
    let mut at = child(alloc, shelf, schema, parent, 2)?;
    for count in 0..400u32 {
        let Some(home) = at else {
            return Ok(count);
        };
        at = twin(alloc, shelf, schema, home)?;
    }
    Ok(400)
}

/// Appends a C behind the 300, of which the last is the 132nd of the second page.
pub fn appends_a_row(alloc: Global, shelf: &mut QuietShelf, schema: &Schema) -> bool
    requires some { 0 < length schema.now.parts }
    requires phidam { schema.now.phdam ≡ false }
{
    let Ok(content) = Bytes::from_slice(alloc, b"99zz") else {
        return false;
    };
    let row = Row {
        name: Ilk {
            addr: 700,
            part: 1,
            number: 9,
        },
        code: 2,
        parent: None,
        content,
    };
    append(alloc, shelf, schema, Side::Input, behind(16, 7256), &row) == Ok(7280)
}
