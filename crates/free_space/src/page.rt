// Changes of a page that is tiled: a cell is put into a hole, and a cell becomes a hole with those that touch it.
ghost use Rattle.std.specs.Prelude.{◌≡◌, ℕ, [], ◌+◌, ◌-◌, ◌%◌, ◌<◌, ◌≤◌, ◌∷◌, ◌++◌, List, length, take, drop, slice_get, Some};
ghost use Rattle.hal_base.specs.declared.place.Shape.{Shape as ShapeOf};
ghost use Rattle.segment_blocks.specs.declared.tile.Cell.{Cell as CellOf};
ghost use Rattle.segment_blocks.specs.declared.tile.Tile.{Tile as TileOf};
ghost use Rattle.segment_blocks.specs.Tiling.{cell_length, spelled, IsTiling};
ghost use Rattle.segment_blocks.specs.Space.{space_of};
ghost use Rattle.segment_blocks.specs.Space.{left_over};
ghost use Rattle.free_space.specs.Clearing.{IsCleared};

use crate::tiles::{Gap, start_of, without_first_hole, without_last_hole};
use hal_base::{BLOCK, Shape};
use segment_blocks::{Cell, Space, Tile, cell_size, others_stand_around, write_cell, write_hole};

/// Puts a cell at the begin of a hole. What is left of it stays a hole.
pub(crate) fn fill(block: &mut [u8; BLOCK], shape: Shape, gap: Gap, cell: &Cell)
    requires body { 16 ≤ gap.at }
    requires inside { gap.at + gap.room ≤ 4096 }
    requires whole { gap.room % 4 ≡ 0 }
    requires fits { cell_length shape ≤ gap.room }
    requires bytes { shape.bytes ≤ 2016 }
    requires children { length cell.now.children ≡ shape.children }
    requires content { length cell.now.content ≡ shape.bytes }
    ensures tiled { (shapes : List ShapeOf) (before after : List TileOf) → IsTiling shapes block.old (before ++ TileOf.Hole gap.at gap.room ∷ after) →
        0 < cell.now.code → slice_get shapes (cell.now.code - 1) ≡ Some shape →
        IsTiling shapes block.new (before ++ (TileOf.Seg gap.at cell.now ∷ left_over (gap.at + cell_length shape) (gap.room - cell_length shape) ++ after)) }
    ensures head { take 16 block.new ≡ take 16 block.old }
{
    others_stand_around();
    let len = cell_size(shape);
    write_cell(shape, block, gap.at, cell);
    if len < gap.room {
        write_hole(block, gap.at + len, gap.room - len);
    }
}

/// The numbers of the tiles with a cell of this length in the hole.
pub(crate) fn filled(tiles: &[Tile], gap: Gap, len: u16) -> Space
    requires within { gap.place < length tiles.now }
    requires fits { len ≤ gap.room }
    ensures { (cell : CellOf) → result ≡ space_of (take gap.place tiles.now ++
        (TileOf.Seg gap.at cell ∷ left_over (gap.at + len) (gap.room - len) ++ drop (gap.place + 1) tiles.now)) }
{
    let before = Space::none().with_all(&tiles[..gap.place]);
    let filled = before.with_cell().with_rest(gap.room - len);
    filled.with_all(&tiles[gap.place + 1..])
}

/// Makes a hole of the cell at a place among the tiles, and of the holes that touch it, and answers the numbers of
/// the tiles then.
pub(crate) fn clear(block: &mut [u8; BLOCK], tiles: &[Tile], place: usize) -> Space
    requires tiled { (shapes : List ShapeOf) × IsTiling shapes block.old tiles.now }
    requires place { (offset : ℕ) × (cell : CellOf) × (slice_get tiles.now place ≡ Some (TileOf.Seg offset cell)) }
    ensures cleared { (shapes : List ShapeOf) (offset : ℕ) (cell : CellOf) → IsTiling shapes block.old tiles.now → slice_get tiles.now place ≡ Some (TileOf.Seg offset cell) →
        (new : List TileOf) × IsCleared tiles.now offset cell new × IsTiling shapes block.new new × (result ≡ space_of new) }
    ensures head { take 16 block.new ≡ take 16 block.old }
{
    others_stand_around();
    let front = without_last_hole(&tiles[..place]);
    let back = without_first_hole(&tiles[place + 1..]);
    let at = start_of(tiles, front.len());
    let len = start_of(tiles, tiles.len() - back.len()) - at;
    write_hole(block, at, len);
    let before = Space::none().with_all(front);
    before.with_hole(len).with_all(back)
}
