//! Tests of the store of cells, and of the cells of a side, over a shelf in memory.
//!
//! - `kept.rt`: a store that stays open from call to call;
//! - `open_side.rt`: a side that stays open from call to call;
//! - `hanging.rt`: a law: what calls on a side say is what the walk asks for;
//! - `cells.rt`: tests of the store of cells;
//! - `sides.rt`: tests of sides.
#![tactic(auto)]

ghost use Rattle.std.specs.Prelude.{◌≡◌, ◌-◌, ◌<◌, List as ListOf, Some, IfOk, length, slice_get};
ghost use Rattle.hal_base.specs.declared.place.Shape.{Shape as ShapeOf};
ghost use Rattle.free_space.specs.Store.{IsTyped};

mod hanging;
mod kept;
mod open_side;

use hal_base::{Bytes, Ilk, List, Memory, Shape};
pub use hanging::placed_segments_hang;
pub use kept::OpenCells;
pub use open_side::OpenSide;
use segment_blocks::Cell;
use std::alloc::Global;

/// A cell of the type of a code, which has this shape.
pub fn cell_of(alloc: Global, code: u8, shape: Shape, byte: u8) -> Result<Cell, Memory>
    requires { 0 < code }
    ensures typed { IfOk result (λ cell. (shapes : ListOf ShapeOf) → slice_get shapes (code - 1) ≡ Some shape → IsTyped shapes cell) }
    ensures content { IfOk result (λ cell. length cell.content ≡ shape.bytes) }
{
    let pointers = [0; 255];
    let content = vec![in alloc; byte; usize::from(shape.bytes)]?;
    Ok(Cell {
        copied: false,
        code,
        name: Ilk {
            addr: 16,
            part: 1,
            number: 1,
        },
        twin: 0,
        children: List::from_slice(alloc, &pointers[..usize::from(shape.children)])?,
        content: Bytes::from_slice(alloc, &content)?,
    })
}

#[cfg(test)]
mod cells;
#[cfg(test)]
mod sides;
