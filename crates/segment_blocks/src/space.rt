ghost use Rattle.std.specs.Prelude.{◌≡◌, ℕ, [], ◌∷◌, ◌++◌, List};
ghost use Rattle.segment_blocks.specs.declared.tile.Cell.{Cell as CellOf};
ghost use Rattle.segment_blocks.specs.declared.tile.Tile.{Tile as TileOf};
ghost use Rattle.segment_blocks.specs.Reading.{number16, tile_of};
ghost use Rattle.segment_blocks.specs.Space.{space_of, left_over};

use crate::Tile;
use crate::head::Head;

/// What is kept of a block without its tiles: the length of its largest hole, the bytes of all holes, those behind its
/// last cell, and whether it holds a cell.
#[derive(Clone, Copy, Debug, PartialEq, Eq)]
pub struct Space {
    pub largest: u16,
    pub free: u16,
    pub last: u16,
    pub cells: bool,
}

impl Space {
    /// That of no tiles, to which tiles are added one behind the other.
    pub fn none() -> Space
        ensures { result ≡ space_of [] }
    {
        Space {
            largest: 0,
            free: 0,
            last: 0,
            cells: false,
        }
    }

    pub fn with_hole(self, len: u16) -> Space
        ensures { (tiles : List TileOf) (at : ℕ) → self ≡ space_of tiles → result ≡ space_of (tiles ++ TileOf.Hole at len ∷ []) }
    {
        Space {
            largest: self.largest.max(len),
            free: self.free.saturating_add(len),
            last: len,
            cells: self.cells,
        }
    }

    /// What is left of a hole, if there is something.
    pub fn with_rest(self, len: u16) -> Space
        ensures { (tiles : List TileOf) (at : ℕ) → self ≡ space_of tiles → result ≡ space_of (tiles ++ left_over at len) }
    {
        if len == 0 { self } else { self.with_hole(len) }
    }

    pub fn with_cell(self) -> Space
        ensures { (tiles : List TileOf) (at : ℕ) (cell : CellOf) → self ≡ space_of tiles → result ≡ space_of (tiles ++ TileOf.Seg at cell ∷ []) }
    {
        Space {
            last: 0,
            cells: true,
            ..self
        }
    }

    pub fn with_tile(self, tile: &Tile) -> Space
        ensures { (tiles : List TileOf) → self ≡ space_of tiles → result ≡ space_of (tiles ++ tile.now ∷ []) }
    {
        match tile {
            Tile::Hole { len, .. } => self.with_hole(*len),
            Tile::Seg { .. } => self.with_cell(),
        }
    }

    /// A tile of this kind, and of this length.
    pub(crate) fn with_head(self, head: Head, len: u16) -> Space
        ensures { (tiles : List TileOf) (at : ℕ) (bytes : List ℕ) → self ≡ space_of tiles → len ≡ number16 2 bytes
            → result ≡ space_of (tiles ++ tile_of head at bytes ∷ []) }
    {
        match head {
            Head::Hole => self.with_hole(len),
            Head::Seg(_) => self.with_cell(),
        }
    }

    pub fn with_all(self, tiles: &[Tile]) -> Space
        ensures { (before : List TileOf) → self ≡ space_of before → result ≡ space_of (before ++ tiles.now) }
    {
        let mut space = self;
        for tile in tiles {
            space = space.with_tile(tile);
        }
        space
    }
}
