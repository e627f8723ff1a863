// New rows in the records of a side, which are opened for each.
ghost use Rattle.std.specs.Prelude.{◌≡◌, ◌<◌, None, false, length, IsTrue};
ghost use Rattle.record_walk.specs.Side.{key_of};
ghost use Rattle.record_tree.specs.Finding.{BelongsTo};
ghost use Rattle.record_tree.specs.Placing.{FitsType, unplaced};

use crate::{Side, opened, opened_at};
use hal_base::{Bytes, PageFault};
use hal_schema::{Row, Schema, portion, select};
use memory_shelf::QuietShelf;
use record_tree::Place;
use std::alloc::Global;

/// Whether a content has the length of its type.
fn fits(schema: &Schema, code: u8, content: &[u8]) -> bool
    ensures { IsTrue result → FitsType schema.now (unplaced code content.now) }
{
    if code == 0 {
        return false;
    }
    match schema.types.as_slice().get(code as usize - 1) {
        None => false,
        Some(t) => content.len() == usize::from(t.bytes),
    }
}

fn root_key<'a>(schema: &Schema, content: &'a [u8]) -> &'a [u8]
    ensures { result.now ≡ key_of schema.now (unplaced 1 content.now) }
{
    match schema.types.as_slice().first() {
        None => &[],
        Some(root) => match root.key {
            None => &[],
            Some(key) => portion(content, key.start, key.bytes),
        },
    }
}

/// Whether the key of a root of this content belongs to the first partition.
fn belongs(schema: &Schema, content: &[u8]) -> bool
    ensures { IsTrue result → BelongsTo schema.now 0 (key_of schema.now (unplaced 1 content.now)) }
{
    select(schema, root_key(schema, content)) == Some(0)
}

/// Whether a row of this type may stand there: below a row, or as a root of the first partition.
fn may_stand(schema: &Schema, place: Place, code: u8, content: &[u8]) -> bool
    ensures root { IsTrue result → place.parent ≡ None → code ≡ 1 }
    ensures belongs { IsTrue result → place.parent ≡ None → BelongsTo schema.now 0 (key_of schema.now (unplaced 1 content.now)) }
{
    match place.parent {
        Some(_) => true,
        None => code == 1 && belongs(schema, content),
    }
}

/// Inserts a row, and answers its home.
pub fn insert(
    alloc: Global,
    shelf: &mut QuietShelf,
    schema: &Schema,
    place: Place,
    code: u8,
    content: &[u8],
) -> Result<u32, PageFault>
    requires some { 0 < length schema.now.parts }
    requires phidam { schema.now.phdam ≡ false }
{
    let content = Bytes::from_slice(alloc, content)?;
    if !fits(schema, code, content.as_slice())
        || !may_stand(schema, place, code, content.as_slice())
    {
        return Err(PageFault::Memory);
    }
    let Ok(mut records) = opened(alloc, shelf, schema) else {
        return Err(PageFault::Memory);
    };
    let name = records.insert(shelf, place, code, &content)?;
    Ok(name.addr)
}

/// Loads a row behind its twins, with no free space left, and answers its home.
pub fn load(
    alloc: Global,
    shelf: &mut QuietShelf,
    schema: &Schema,
    place: Place,
    code: u8,
    content: &[u8],
) -> Result<u32, PageFault>
    requires some { 0 < length schema.now.parts }
    requires phidam { schema.now.phdam ≡ false }
{
    let content = Bytes::from_slice(alloc, content)?;
    if !fits(schema, code, content.as_slice())
        || !may_stand(schema, place, code, content.as_slice())
    {
        return Err(PageFault::Memory);
    }
    let Ok(mut records) = opened(alloc, shelf, schema) else {
        return Err(PageFault::Memory);
    };
    let name = records.load_row(shelf, place, code, &content, 0, 0)?;
    Ok(name.addr)
}

/// Appends a row under its name, reads it so, and answers its home.
pub fn append(
    alloc: Global,
    shelf: &mut QuietShelf,
    schema: &Schema,
    side: Side,
    place: Place,
    row: &Row,
) -> Result<u32, PageFault>
    requires some { 0 < length schema.now.parts }
    requires phidam { schema.now.phdam ≡ false }
{
    if !fits(schema, row.code, row.content.as_slice())
        || !may_stand(schema, place, row.code, row.content.as_slice())
    {
        return Err(PageFault::Memory);
    }
    let Ok(mut records) = opened_at(alloc, shelf, schema, side) else {
        return Err(PageFault::Memory);
    };
    let at = records.append(shelf, place, row, 2, 10)?;
    let cell = records.cell(shelf, at)?;
    if cell.name != row.name {
        return Err(PageFault::Memory);
    }
    Ok(at)
}
