// A side that is laid out by hand, and what the calls answer on it. R of key 001 has two C, the second with a G; R of key 007
// has none. The homes are 16, 44, 68, 92 and 112.
ghost use Rattle.std.specs.Prelude.{◌≡◌, ◌<◌, ◌≤◌, false, length};

use crate::{child, first_root, place, put_root, replace, root, set_child, set_twin, twin};
use hal_base::{Bytes, PageFault};
use hal_schema::Schema;
use memory_shelf::QuietShelf;
use std::alloc::Global;

/// Places the five cells.
fn placed(alloc: Global, shelf: &mut QuietShelf) -> Result<[u32; 5], PageFault> {
    let root = place(alloc, shelf, 1, b"001aa")?;
    let first = place(alloc, shelf, 2, b"01xx")?;
    let second = place(alloc, shelf, 2, b"02yy")?;
    let below = place(alloc, shelf, 3, b"gg")?;
    let other = place(alloc, shelf, 1, b"007bb")?;
    Ok([root, first, second, below, other])
}

/// Hangs them below one another.
fn hung(alloc: Global, shelf: &mut QuietShelf) -> Result<(), PageFault> {
    set_child(alloc, shelf, 16, 44)?;
    set_twin(alloc, shelf, 44, 68)?;
    set_child(alloc, shelf, 68, 92)?;
    put_root(alloc, shelf, b"007", 112)?;
    put_root(alloc, shelf, b"001", 16)
}

/// Lays the side out, and answers whether its cells are at their homes.
pub fn is_laid_out(alloc: Global, shelf: &mut QuietShelf) -> bool {
    placed(alloc, shelf) == Ok([16, 44, 68, 92, 112]) && hung(alloc, shelf) == Ok(())
}

/// A root is found by its key and as the first, and none by another key.
pub fn finds_roots(alloc: Global, shelf: &mut QuietShelf, schema: &Schema) -> bool
    requires some { 0 < length schema.now.parts }
    requires phidam { schema.now.phdam ≡ false }
{
    root(alloc, shelf, schema, b"007") == Ok(Some(112))
        && root(alloc, shelf, schema, b"003") == Ok(None)
        && first_root(alloc, shelf, schema) == Ok(Some(16))
}

/// The first root has two C, and the second C alone a G.
pub fn finds_dependents(alloc: Global, shelf: &mut QuietShelf, schema: &Schema) -> bool
    requires some { 0 < length schema.now.parts }
    requires phidam { schema.now.phdam ≡ false }
    requires types { 3 ≤ length schema.now.types }
{
    child(alloc, shelf, schema, 16, 2) == Ok(Some(44))
        && twin(alloc, shelf, schema, 44) == Ok(Some(68))
        && twin(alloc, shelf, schema, 68) == Ok(None)
        && child(alloc, shelf, schema, 44, 3) == Ok(None)
        && child(alloc, shelf, schema, 68, 3) == Ok(Some(92))
}

/// The content of the second C is replaced, and read so.
pub fn changes_content(alloc: Global, shelf: &mut QuietShelf, schema: &Schema) -> bool
    requires some { 0 < length schema.now.parts }
    requires phidam { schema.now.phdam ≡ false }
{
    let Ok(content) = Bytes::from_slice(alloc, b"02zz") else {
        return false;
    };
    replace(alloc, shelf, schema, 68, &content) == Ok(b'z')
}
