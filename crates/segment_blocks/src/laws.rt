ghost use Rattle.std.specs.Prelude.{◌≡◌, ℕ, ◌+◌, ◌≤◌, List, ◌++◌, length, slice_get, Some};
ghost use Rattle.hal_base.specs.declared.place.Shape.{Shape};
ghost use Rattle.segment_blocks.specs.declared.tile.Cell.{Cell};
ghost use Rattle.segment_blocks.specs.declared.tile.Tile.{Tile};
ghost use Rattle.segment_blocks.specs.Tiling.{AreTiles, IsTiling, StandAround, StopsAt, spelled};
ghost use Rattle.segment_blocks.specs.TilesOf.{tiles_of, cell_among};

/// A block has one tiling, which is a function of its bytes, or one offset at which its tiles stop, and not both.
pub fn one_tiling()
    ensures tiling { (shapes : List Shape) (block : List ℕ) (tiles : List Tile) → IsTiling shapes block tiles → tiles ≡ tiles_of shapes block }
    ensures stop { (shapes : List Shape) (block : List ℕ) (one other : ℕ) →
        StopsAt shapes block one → StopsAt shapes block other → one ≡ other }
    ensures either { (shapes : List Shape) (block : List ℕ) (offset : ℕ) (tiles : List Tile) →
        StopsAt shapes block offset → IsTiling shapes block tiles → ⊥ }
{}

/// A cell stands at an offset of a tiled block exactly where the function gives it.
pub fn cells_by_offset()
    ensures given { (shapes : List Shape) (block : List ℕ) (tiles : List Tile) (place offset : ℕ) (cell : Cell) →
        IsTiling shapes block tiles → slice_get tiles place ≡ Some (Tile.Seg offset cell) → cell_among offset tiles ≡ Some cell }
    ensures found { (offset : ℕ) (tiles : List Tile) (cell : Cell) → cell_among offset tiles ≡ Some cell →
        (place : ℕ) × (slice_get tiles place ≡ Some (Tile.Seg offset cell)) }
{}

/// In a tiled block the other tiles stand around each run of tiles, and where tiles stand around a part that they
/// leave nothing of, the block is tiled. So a block that is changed by several writes is followed from a tiling
/// to the next.
pub fn others_stand_around()
    ensures opened { (shapes : List Shape) (block : List ℕ) (before run after : List Tile) →
        IsTiling shapes block (before ++ (run ++ after)) →
        StandAround block (16 + length (spelled before)) (16 + length (spelled before) + length (spelled run)) before after }
    ensures closed { (shapes : List Shape) (block : List ℕ) (at : ℕ) (before after : List Tile) → 16 ≤ at → at ≤ length block →
        StandAround block at at before after → AreTiles shapes (before ++ after) → IsTiling shapes block (before ++ after) }
{}
