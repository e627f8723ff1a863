// One call on the records of a side, which are opened for it.
ghost use Rattle.std.specs.Prelude.{◌≡◌, ◌<◌, ◌≤◌, false, length};

use crate::opened;
use hal_base::{Bytes, List, PageFault};
use hal_schema::Schema;
use memory_shelf::QuietShelf;
use record_tree::{HomedRow, Place};
use std::alloc::Global;

pub fn root(
    alloc: Global,
    shelf: &mut QuietShelf,
    schema: &Schema,
    key: &[u8; 3],
) -> Result<Option<u32>, PageFault>
    requires some { 0 < length schema.now.parts }
    requires phidam { schema.now.phdam ≡ false }
{
    let Ok(mut records) = opened(alloc, shelf, schema) else {
        return Err(PageFault::Memory);
    };
    records.root(shelf, key)
}

pub fn first_root(
    alloc: Global,
    shelf: &mut QuietShelf,
    schema: &Schema,
) -> Result<Option<u32>, PageFault>
    requires some { 0 < length schema.now.parts }
    requires phidam { schema.now.phdam ≡ false }
{
    let Ok(mut records) = opened(alloc, shelf, schema) else {
        return Err(PageFault::Memory);
    };
    records.next_root(shelf, None)
}

pub fn child(
    alloc: Global,
    shelf: &mut QuietShelf,
    schema: &Schema,
    at: u32,
    code: u8,
) -> Result<Option<u32>, PageFault>
    requires some { 0 < length schema.now.parts }
    requires phidam { schema.now.phdam ≡ false }
    requires coded { 0 < code }
    requires known { code ≤ length schema.now.types }
{
    let Ok(records) = opened(alloc, shelf, schema) else {
        return Err(PageFault::Memory);
    };
    records.child(shelf, at, code)
}

pub fn twin(
    alloc: Global,
    shelf: &mut QuietShelf,
    schema: &Schema,
    at: u32,
) -> Result<Option<u32>, PageFault>
    requires some { 0 < length schema.now.parts }
    requires phidam { schema.now.phdam ≡ false }
{
    let Ok(records) = opened(alloc, shelf, schema) else {
        return Err(PageFault::Memory);
    };
    records.twin(shelf, at)
}

/// Replaces a content, and answers the last byte of the cell as it is read then.
pub fn replace(
    alloc: Global,
    shelf: &mut QuietShelf,
    schema: &Schema,
    at: u32,
    content: &Bytes,
) -> Result<u8, PageFault>
    requires some { 0 < length schema.now.parts }
    requires phidam { schema.now.phdam ≡ false }
{
    let Ok(mut records) = opened(alloc, shelf, schema) else {
        return Err(PageFault::Memory);
    };
    records.replace(shelf, at, content)?;
    let cell = records.cell(shelf, at)?;
    Ok(cell.content.as_slice().last().copied().unwrap_or(0))
}

pub fn remove(
    alloc: Global,
    shelf: &mut QuietShelf,
    schema: &Schema,
    place: Place,
    at: u32,
) -> Result<(), PageFault>
    requires some { 0 < length schema.now.parts }
    requires phidam { schema.now.phdam ≡ false }
{
    let Ok(mut records) = opened(alloc, shelf, schema) else {
        return Err(PageFault::Memory);
    };
    records.remove(shelf, place, at)
}

pub fn retire(
    alloc: Global,
    shelf: &mut QuietShelf,
    schema: &Schema,
    at: u32,
) -> Result<(), PageFault>
    requires some { 0 < length schema.now.parts }
    requires phidam { schema.now.phdam ≡ false }
{
    let Ok(mut records) = opened(alloc, shelf, schema) else {
        return Err(PageFault::Memory);
    };
    records.retire(shelf, at)
}

/// All rows of the side.
pub fn walk(
    alloc: Global,
    shelf: &mut QuietShelf,
    schema: &Schema,
) -> Result<List<HomedRow>, PageFault>
    requires some { 0 < length schema.now.parts }
    requires phidam { schema.now.phdam ≡ false }
{
    let Ok(mut records) = opened(alloc, shelf, schema) else {
        return Err(PageFault::Memory);
    };
    records.walk(shelf)
}
