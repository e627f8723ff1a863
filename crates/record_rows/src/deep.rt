// A record of fifteen levels, the most that a definition has. Its rows stand 28 bytes apart, from 16 on.
ghost use Rattle.std.specs.Prelude.{◌≡◌, ◌<◌, ◌≤◌, false, length};

use crate::{Side, append, cell_at, child, child_at, insert, remove, replace, retire, root};
use hal_base::{Bytes, PageFault};
use hal_schema::{Row, Schema};
use memory_shelf::QuietShelf;
use record_tree::Place;
use std::alloc::Global;
use std::ops::Range;

/// The home of the row at a level, the root's being 1.
fn home(level: u8) -> u32 {
    (28 * u32::from(level)).saturating_sub(12)
}

/// Where the row at a level stands.
fn place_at(level: u8) -> Place {
    let parent = if level <= 1 {
        None
    } else {
        Some(home(level - 1))
    };
    Place {
        parent,
        prior: None,
    }
}

/// Inserts a row at each of these levels, the highest first, and answers whether each came to its home.
fn builds(alloc: Global, shelf: &mut QuietShelf, schema: &Schema, from: u8) -> bool
    requires some { 0 < length schema.now.parts }
    requires phidam { schema.now.phdam ≡ false }
{
    for level in from..16 {
        if insert(alloc, shelf, schema, place_at(level), level, b"001aa") != Ok(home(level)) {
            return false;
        }
    }
    true
}

/// Whether first children lead down from the root to the lowest level.
fn leads_down(alloc: Global, shelf: &mut QuietShelf, schema: &Schema, side: Side) -> bool
    requires some { 0 < length schema.now.parts }
    requires phidam { schema.now.phdam ≡ false }
    requires types { 15 ≤ length schema.now.types }
{
    for level in 1..15 {
        let below = child_at(alloc, shelf, schema, side, home(level), level + 1);
        if below != Ok(Some(home(level + 1))) {
            return false;
        }
    }
    true
}

/// Whether what stands at the homes of these levels has this mark; no cell, where none is said.
fn are_marked(
    alloc: Global,
    shelf: &mut QuietShelf,
    schema: &Schema,
    levels: Range<u8>,
    mark: Option<bool>,
) -> bool
    requires some { 0 < length schema.now.parts }
    requires phidam { schema.now.phdam ≡ false }
{
    for level in levels {
        let cell = cell_at(alloc, shelf, schema, Side::Input, home(level));
        if cell.ok().map(|cell| cell.copied) != mark {
            return false;
        }
    }
    true
}

/// The record is built, and each level is found from the one above.
pub fn builds_levels(alloc: Global, shelf: &mut QuietShelf, schema: &Schema) -> bool
    requires some { 0 < length schema.now.parts }
    requires phidam { schema.now.phdam ≡ false }
    requires types { 15 ≤ length schema.now.types }
{
    builds(alloc, shelf, schema, 1) && leads_down(alloc, shelf, schema, Side::Input)
}

/// The row of level 8 is cut out with the seven below it, and inserted again where these were.
pub fn cuts_levels(alloc: Global, shelf: &mut QuietShelf, schema: &Schema) -> bool
    requires some { 0 < length schema.now.parts }
    requires phidam { schema.now.phdam ≡ false }
    requires types { 15 ≤ length schema.now.types }
{
    remove(alloc, shelf, schema, place_at(8), home(8)) == Ok(())
        && child(alloc, shelf, schema, home(7), 8) == Ok(None)
        && are_marked(alloc, shelf, schema, 1..8, Some(false))
        && are_marked(alloc, shelf, schema, 8..16, None)
        && builds(alloc, shelf, schema, 8)
        && leads_down(alloc, shelf, schema, Side::Input)
}

/// Copies the row of each level to the other side, each under its name.
fn copies(alloc: Global, shelf: &mut QuietShelf, schema: &Schema) -> Result<bool, PageFault>
    requires some { 0 < length schema.now.parts }
    requires phidam { schema.now.phdam ≡ false }
{
    for level in 1..16 {
        let cell = cell_at(alloc, shelf, schema, Side::Input, home(level))?;
        let row = Row {
            name: cell.name,
            code: cell.code,
            parent: None,
            content: cell.content,
        };
        if append(alloc, shelf, schema, Side::Output, place_at(level), &row)? != home(level) {
            return Ok(false);
        }
    }
    Ok(true)
}

/// The record is copied to the other side and retired on this one, where it isn't found then and keeps its cells.
pub fn moves_record(alloc: Global, shelf: &mut QuietShelf, schema: &Schema) -> bool
    requires some { 0 < length schema.now.parts }
    requires phidam { schema.now.phdam ≡ false }
    requires types { 15 ≤ length schema.now.types }
{
    copies(alloc, shelf, schema) == Ok(true)
        && retire(alloc, shelf, schema, home(1)) == Ok(())
        && root(alloc, shelf, schema, b"001") == Ok(None)
        && are_marked(alloc, shelf, schema, 1..16, Some(true))
        && leads_down(alloc, shelf, schema, Side::Output)
}

/// Whether the content of the row at a level ends with this byte.
fn ends_with(alloc: Global, shelf: &mut QuietShelf, schema: &Schema, level: u8, byte: u8) -> bool
    requires some { 0 < length schema.now.parts }
    requires phidam { schema.now.phdam ≡ false }
{
    match cell_at(alloc, shelf, schema, Side::Input, home(level)) {
        Ok(cell) => cell.content.as_slice().last() == Some(&byte),
        Err(_) => false,
    }
}

/// The content of the lowest row is replaced, and not that of the row above it.
pub fn changes_lowest(alloc: Global, shelf: &mut QuietShelf, schema: &Schema) -> bool
    requires some { 0 < length schema.now.parts }
    requires phidam { schema.now.phdam ≡ false }
{
    let Ok(content) = Bytes::from_slice(alloc, b"001zz") else {
        return false;
    };
    replace(alloc, shelf, schema, home(15), &content) == Ok(b'z')
        && ends_with(alloc, shelf, schema, 14, b'a')
        && ends_with(alloc, shelf, schema, 15, b'z')
}
