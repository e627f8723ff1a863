// One cell of a block, at its offset.
ghost use Rattle.std.specs.Prelude.{◌≡◌, ◌≤◌, ◌+◌, ℕ, List, Some, None, IfOk, IfSome, MatchBool};
ghost use Rattle.hal_base.specs.declared.place.Shape.{Shape as ShapeOf};
ghost use Rattle.segment_blocks.specs.declared.tile.Cell.{Cell as CellOf};
ghost use Rattle.segment_blocks.specs.declared.tile.Tile.{Tile as TileOf};
ghost use Rattle.segment_blocks.specs.Tiling.{cell_length, shape_of, IsCell, IsTiling};
ghost use Rattle.segment_blocks.specs.TilesOf.{cell_among};

use crate::Cell;
use crate::head::begun_shape;
use crate::parse::read_cell;
use hal_base::{Memory, Shape, get16};
use std::alloc::Global;

/// The cell that its bytes make at an offset. Of a tiled block it is the cell there, if one stands at that offset: no
/// other byte is looked at.
pub fn read_at(
    alloc: Global,
    shapes: &[Shape],
    block: &[u8; 4096],
    at: u16,
) -> Result<Option<Cell>, Memory>
    ensures there { (tiles : List TileOf) (cell : CellOf) → IsTiling shapes.now block.now tiles → cell_among at tiles ≡ Some cell
        → IfOk result (λ found. found ≡ Some cell) }
    ensures made { IfOk result (λ found. IfSome found (λ cell. (16 ≤ at) × (at + cell_length (shape_of cell) ≤ 4096) × IsCell shapes.now cell)) }
{
    if at < 16 || at > 4080 {
        return Ok(None);
    }
    let bytes = &block[usize::from(at)..];
    match begun_shape(shapes, bytes) {
        None => Ok(None),
        Some(shape) => {
            let cell = read_cell(alloc, shape, bytes)?;
            Ok(Some(cell))
        }
    }
}

/// Whether a cell begins at an offset of a tiled block. The tiles before it are stepped over by their lengths.
fn stands_at(block: &[u8; 4096], at: u16) -> bool
    ensures { (shapes : List ShapeOf) (tiles : List TileOf) → IsTiling shapes block.now tiles
        → MatchBool result ((cell : CellOf) × (cell_among at tiles ≡ Some cell)) (cell_among at tiles ≡ None) }
{
    if at > 4080 {
        return false;
    }
    let end = usize::from(at);
    let mut start = 16;
    while start < end {
        let len = get16(block, start + 2);
        if len < 4 {
            return false;
        }
        start += usize::from(len);
    }
    start == end && block[end] != 0
}

/// What stands at an offset of a tiled block.
pub fn find_at(
    alloc: Global,
    shapes: &[Shape],
    block: &[u8; 4096],
    at: u16,
) -> Result<Option<Cell>, Memory>
    ensures { (tiles : List TileOf) → IsTiling shapes.now block.now tiles → IfOk result (λ found. found ≡ cell_among at tiles) }
{
    if !stands_at(block, at) {
        return Ok(None);
    }
    read_at(alloc, shapes, block, at)
}
