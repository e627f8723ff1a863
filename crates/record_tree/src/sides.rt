// What a definition says of a side: its data sets, and the letters and lengths of its types.
ghost use Rattle.std.specs.Prelude.{◌≡◌, ◌<◌, ◌≤◌, length, IfOk};
ghost use Rattle.hal_schema.specs.SegType.{key_bytes};
ghost use Rattle.record_walk.specs.Orders.{child_place};
ghost use Rattle.record_tree.specs.Sides.{first_set, letters_of, shapes_of, root_set};

use hal_base::{List, Memory, SetId, Shape};
use hal_schema::{Schema, SegType, schemas_are_kept};
use std::alloc::Global;

/// The letters of the types, by their codes.
pub(crate) fn letters_of(alloc: Global, schema: &Schema) -> Result<List<u8>, Memory>
    ensures { IfOk result (λ letters. letters ≡ letters_of schema.now) }
{
    let mut letters = List::new(alloc);
    for t in schema.types.as_slice() {
        letters.push(t.letter)?;
    }
    Ok(letters)
}

/// The shapes of the types, by their codes.
pub(crate) fn shapes_of(alloc: Global, schema: &Schema) -> Result<List<Shape>, Memory>
    ensures { IfOk result (λ shapes. shapes ≡ shapes_of schema.now) }
{
    schemas_are_kept();
    let mut shapes = List::new(alloc);
    for place in 0..schema.types.len() {
        shapes.push(schema.shape(place as u8 + 1))?;
    }
    Ok(shapes)
}

/// How long the key of a root is.
pub(crate) fn root_bytes(schema: &Schema) -> u16
    ensures is { result ≡ key_bytes schema.now.types 1 }
    ensures short { result ≤ 100 }
{
    schemas_are_kept();
    let root = schema.types.as_slice().first();
    root.and_then(|t| t.key).map_or(0, |k| k.bytes)
}

/// The first data set of a side.
pub(crate) fn first_set(schema: &Schema, place: u16, number: u16, side: u8) -> SetId
    requires { place < length schema.now.parts }
    ensures { result ≡ first_set schema.now place number side }
{
    SetId {
        part: schema.parts.as_slice()[usize::from(place)].number,
        number,
        letter: side,
    }
}

/// The root set beside the side's first data set.
pub(crate) fn root_set(first: SetId) -> SetId
    ensures { result ≡ root_set first }
{
    let letter = if first.letter == b'A' { b'X' } else { b'Y' };
    SetId { letter, ..first }
}

/// The place of a type's pointer among those of its parent's cells.
pub(crate) fn child_place(types: &[SegType], code: u8) -> usize
    requires above { 0 < code }
    requires known { code ≤ length types.now }
    ensures { result ≡ child_place types.now code }
{
    let Some(parent) = types[code as usize - 1].parent else {
        return 0;
    };
    types[..code as usize - 1]
        .iter()
        .filter(|t| t.parent == Some(parent))
        .count()
}
