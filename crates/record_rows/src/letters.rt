// A side of which R and G have letter A, and C between them letter B: an address has the place of its letter in its four
// highest bits.
ghost use Rattle.std.specs.Prelude.{◌≡◌, ◌<◌, ◌≤◌, false, length};

use crate::{child, insert, remove, twin};
use hal_schema::Schema;
use memory_shelf::QuietShelf;
use record_tree::Place;
use std::alloc::Global;

/// Where the second letter begins.
const B: u32 = 1 << 28;

const AS_ROOT: Place = Place {
    parent: None,
    prior: None,
};

fn below(parent: u32, prior: Option<u32>) -> Place {
    Place {
        parent: Some(parent),
        prior,
    }
}

/// R with two C, of which each has a G.
fn inserts_rows(alloc: Global, shelf: &mut QuietShelf, schema: &Schema) -> bool
    requires some { 0 < length schema.now.parts }
    requires phidam { schema.now.phdam ≡ false }
{
    insert(alloc, shelf, schema, AS_ROOT, 1, b"001aa") == Ok(16)
        && insert(alloc, shelf, schema, below(16, None), 2, b"01xx") == Ok(B + 16)
        && insert(alloc, shelf, schema, below(16, Some(B + 16)), 2, b"02yy") == Ok(B + 40)
        && insert(alloc, shelf, schema, below(B + 16, None), 3, b"gg") == Ok(44)
        && insert(alloc, shelf, schema, below(B + 40, None), 3, b"hh") == Ok(64)
}

/// Rows of each letter lead to one another, and a span of both is cut out.
pub fn crosses_letters(alloc: Global, shelf: &mut QuietShelf, schema: &Schema) -> bool
    requires some { 0 < length schema.now.parts }
    requires phidam { schema.now.phdam ≡ false }
    requires types { 3 ≤ length schema.now.types }
{
    inserts_rows(alloc, shelf, schema)
        && child(alloc, shelf, schema, 16, 2) == Ok(Some(B + 16))
        && twin(alloc, shelf, schema, B + 16) == Ok(Some(B + 40))
        && child(alloc, shelf, schema, B + 40, 3) == Ok(Some(64))
        && remove(alloc, shelf, schema, below(16, None), B + 16) == Ok(())
        && child(alloc, shelf, schema, 16, 2) == Ok(Some(B + 40))
        && insert(alloc, shelf, schema, below(B + 40, Some(64)), 3, b"ii") == Ok(44)
        && twin(alloc, shelf, schema, 64) == Ok(Some(44))
}
