// A side that a test lays out: three levels, R, below it C, and below C G, all of the letter A. Each call opens anew what it
// stands on.
ghost use Rattle.std.specs.Prelude.{◌≡◌, ◌-◌, ◌<◌, false, length, slice_get, List as ListOf, Some, IfOk};
ghost use Rattle.hal_base.specs.declared.place.Shape.{Shape as ShapeOf};
ghost use Rattle.free_space.specs.Store.{IsTyped};
ghost use Rattle.record_tree.specs.Sides.{first_set};
ghost use Rattle.record_tree.specs.Standing.{IsOpenedFor};

use free_space::SideCells;
use hal_base::{Bytes, Ilk, List, Memory, PageFault, SetId, Shape, Shelf, StoreFault};
use hal_schema::Schema;
use keyed_sets::KeyedSet;
use memory_shelf::QuietShelf;
use record_tree::Records;
use segment_blocks::Cell;
use std::alloc::Global;

const FIRST: SetId = SetId {
    part: 1,
    number: 1,
    letter: b'A',
};

const ROOTS: SetId = SetId {
    part: 1,
    number: 1,
    letter: b'X',
};

const SHAPES: [Shape; 3] = [
    Shape {
        children: 1,
        bytes: 5,
    },
    Shape {
        children: 1,
        bytes: 4,
    },
    Shape {
        children: 0,
        bytes: 2,
    },
];

/// A cell of the type of a code, which has this shape, without twins and children.
pub fn cell_of(alloc: Global, code: u8, shape: Shape, content: &[u8]) -> Result<Cell, Memory>
    requires coded { 0 < code }
    requires long { length content.now ≡ shape.bytes }
    ensures typed { IfOk result (λ cell. (shapes : ListOf ShapeOf) → slice_get shapes (code - 1) ≡ Some shape → IsTyped shapes cell) }
    ensures content { IfOk result (λ cell. length cell.content ≡ shape.bytes) }
{
    let pointers = [0; 255];
    Ok(Cell {
        copied: false,
        code,
        name: Ilk {
            addr: 16,
            part: 1,
            number: 1,
        },
        twin: 0,
        children: List::from_slice(alloc, &pointers[..usize::from(shape.children)])?,
        content: Bytes::from_slice(alloc, content)?,
    })
}

/// Places a cell of a type. Of each type, that of code 1 first, the shape.
fn place_of(
    alloc: Global,
    shelf: &mut QuietShelf,
    shapes: &[Shape],
    code: u8,
    content: &[u8],
) -> Result<u32, PageFault>
    requires { length shapes.now ≡ 3 }
{
    if code == 0 {
        return Err(PageFault::Memory);
    }
    let Some(shape) = shapes.get(usize::from(code) - 1) else {
        return Err(PageFault::Memory);
    };
    if content.len() != usize::from(shape.bytes) || shape.bytes > 2016 {
        return Err(PageFault::Memory);
    }
    let Ok(cell) = cell_of(alloc, code, *shape, content) else {
        return Err(PageFault::Memory);
    };
    let Ok(mut side) = SideCells::open(alloc, shelf, FIRST, b"AAA", shapes) else {
        return Err(PageFault::Memory);
    };
    side.place(shelf, &cell)
}

/// Places a cell of a type.
pub fn place(
    alloc: Global,
    shelf: &mut QuietShelf,
    code: u8,
    content: &[u8],
) -> Result<u32, PageFault> {
    place_of(alloc, shelf, &SHAPES, code, content)
}

pub fn set_child(alloc: Global, shelf: &mut QuietShelf, at: u32, to: u32) -> Result<(), PageFault> {
    let Ok(side) = SideCells::open(alloc, shelf, FIRST, b"AAA", &SHAPES) else {
        return Err(PageFault::Memory);
    };
    side.set_child(shelf, at, 0, to)
}

pub fn set_twin(alloc: Global, shelf: &mut QuietShelf, at: u32, to: u32) -> Result<(), PageFault> {
    let Ok(side) = SideCells::open(alloc, shelf, FIRST, b"AAA", &SHAPES) else {
        return Err(PageFault::Memory);
    };
    side.set_twin(shelf, at, to)
}

/// Whether the cell at a home is marked as copied, none where no cell stands.
pub fn mark_at(alloc: Global, shelf: &mut QuietShelf, at: u32) -> Result<Option<bool>, PageFault> {
    let Ok(side) = SideCells::open(alloc, shelf, FIRST, b"AAA", &SHAPES) else {
        return Err(PageFault::Memory);
    };
    Ok(side.find(shelf, at)?.map(|cell| cell.copied))
}

/// Puts a root's row into the root set.
pub fn put_root(
    alloc: Global,
    shelf: &mut QuietShelf,
    key: &[u8; 3],
    at: u32,
) -> Result<(), PageFault> {
    let Ok(mut roots) = KeyedSet::open(alloc, shelf, ROOTS, 3, 4) else {
        return Err(PageFault::Memory);
    };
    roots.put(shelf, key, &at.to_be_bytes())
}

/// The side's records.
pub fn opened(alloc: Global, shelf: &mut QuietShelf, schema: &Schema) -> Result<Records, StoreFault>
    requires some { 0 < length schema.now.parts }
    requires phidam { schema.now.phdam ≡ false }
    ensures { IfOk result (λ records. IsOpenedFor schema.now 0 (first_set schema.now 0 1 65) records (⟦<QuietShelf as Shelf>⟧.seen shelf.new)) }
{
    Records::open(alloc, shelf, schema, 0, 1, b'A')
}
