// The tiles of a page: where a hole is large enough, and where a cell stands.
ghost use Rattle.std.specs.Prelude.{◌≡◌, ◌<◌, ◌≤◌, ◌+◌, ℕ, List, length, take, slice_get, Some, IfSome, IfNone};
ghost use Rattle.hal_base.specs.declared.place.Shape.{Shape as ShapeOf};
ghost use Rattle.segment_blocks.specs.declared.tile.Cell.{Cell as CellOf};
ghost use Rattle.segment_blocks.specs.declared.tile.Tile.{Tile as TileOf};
ghost use Rattle.segment_blocks.specs.Tiling.{spelled, IsTiling};
ghost use Rattle.segment_blocks.specs.Space.{largest_hole, last_hole};
ghost use Rattle.free_space.specs.Gaps.{IsFirstGap, IsLastGap, tile_offset};
ghost use Rattle.free_space.specs.Clearing.{IsFront, IsBack};

use segment_blocks::{Cell, Tile};

/// A hole among a page's tiles: its place among them, its offset in the page, and its length.
#[derive(Clone, Copy, Debug, PartialEq, Eq)]
pub(crate) struct Gap {
    pub place: usize,
    pub at: u16,
    pub room: u16,
}

/// The lowest hole in which so many bytes have place.
pub(crate) fn first_gap(tiles: &[Tile], len: u16) -> Option<Gap>
    requires { 0 < len }
    ensures found { IfSome result (IsFirstGap tiles.now len) }
    ensures none { IfNone result (largest_hole tiles.now < len) }
{
    for (place, tile) in tiles.iter().enumerate() {
        if let Tile::Hole { at, len: room } = tile {
            if *room >= len {
                return Some(Gap {
                    place,
                    at: *at,
                    room: *room,
                });
            }
        }
    }
    None
}

/// The hole behind the last cell, if so many bytes have place in it.
pub(crate) fn last_gap(tiles: &[Tile], len: u16) -> Option<Gap>
    requires { 0 < len }
    ensures found { IfSome result (IsLastGap tiles.now len) }
    ensures none { IfNone result (last_hole tiles.now < len) }
{
    let place = tiles.len().checked_sub(1)?;
    match &tiles[place] {
        Tile::Hole { at, len: room } if *room >= len => Some(Gap {
            place,
            at: *at,
            room: *room,
        }),
        _ => None,
    }
}

/// The cell that stands at this offset, and its place among the tiles.
pub(crate) fn find_cell(tiles: &[Tile], offset: u16) -> Option<(usize, &Cell)>
    ensures found { IfSome result (λ found. slice_get tiles.now found.0 ≡ Some (TileOf.Seg offset found.1.now)) }
    ensures none { IfNone result ((place : ℕ) (cell : CellOf) → slice_get tiles.now place ≡ Some (TileOf.Seg offset cell) → ⊥) }
{
    for (place, tile) in tiles.iter().enumerate() {
        if let Tile::Seg { at, cell } = tile {
            if *at == offset {
                return Some((place, cell));
            }
        }
    }
    None
}

/// The tiles without the hole at their end.
pub(crate) fn without_last_hole(tiles: &[Tile]) -> &[Tile]
    ensures { IsFront tiles.now result.now }
{
    match tiles.split_last() {
        Some((Tile::Hole { .. }, front)) => front,
        Some((Tile::Seg { .. }, _)) => tiles,
        None => tiles,
    }
}

/// The tiles without the hole at their begin.
pub(crate) fn without_first_hole(tiles: &[Tile]) -> &[Tile]
    ensures { IsBack tiles.now result.now }
{
    match tiles.split_first() {
        Some((Tile::Hole { .. }, back)) => back,
        Some((Tile::Seg { .. }, _)) => tiles,
        None => tiles,
    }
}

fn offset_of(tile: &Tile) -> u16
    ensures { result ≡ tile_offset tile.now }
{
    match tile {
        Tile::Hole { at, .. } | Tile::Seg { at, .. } => *at,
    }
}

/// The offset in a page at which the tile of a place begins, or that of the page's end.
pub(crate) fn start_of(tiles: &[Tile], place: usize) -> u16
    requires { place ≤ length tiles.now }
    ensures { (shapes : List ShapeOf) (block : List ℕ) → IsTiling shapes block tiles.now → length block ≡ 4096 → result
        ≡ 16 + length (spelled (take place tiles.now)) }
{
    match tiles.get(place) {
        Some(tile) => offset_of(tile),
        None => 4096,
    }
}
