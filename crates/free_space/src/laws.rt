ghost use Rattle.std.specs.Prelude.{◌≡◌, ◌≢◌, ℕ, List, Some};
ghost use Rattle.hal_base.specs.declared.pages.SetId.{SetId};
ghost use Rattle.hal_base.specs.ShelfCalls.{ShelfView, ChangedIn, GrownBy};
ghost use Rattle.segment_blocks.specs.declared.tile.Cell.{Cell};
ghost use Rattle.free_space.specs.declared.store.CellStore.{CellStore};
ghost use Rattle.free_space.specs.Map.{layout_of, cell_at};
ghost use Rattle.free_space.specs.SideLaws.{OthersLeaveASide, NoneAtZero, PagesListTheCells};
ghost use Rattle.free_space.specs.Store.{StandsFor};

/// A store stays open across calls that change pages of another data set or add pages to it, as those of another
/// store do.
pub fn others_leave_a_store_open()
    ensures changed { (store : CellStore) (set : SetId) (old new : ShelfView) →
        StandsFor store old → (store.set ≡ set → ⊥) → ChangedIn set old new → StandsFor store new }
    ensures grown { (store : CellStore) (count : ℕ) (set : SetId) (old new : ShelfView) →
        StandsFor store old → (store.set ≡ set → ⊥) → GrownBy count set old new → StandsFor store new }
{}

/// No cell stands at the address 0, which is none.
pub fn no_cell_is_at_zero()
    ensures { (store : CellStore) (shelf : ShelfView) (pages : List (List ℕ)) (at : ℕ) (cell : Cell) →
        StandsFor store shelf → shelf.pages store.set ≡ Some pages → cell_at store.set (layout_of store.shapes pages) at ≡ Some cell → at ≢ 0 }
{}

/// A side stays open across calls on data sets that aren't its own, as those on the root set, and its cells stay.
pub fn others_leave_a_side_open()
    ensures { OthersLeaveASide }
{}

/// No cell of a side stands at the address 0, which is none.
pub fn no_side_cell_is_at_zero()
    ensures { NoneAtZero }
{}

/// Whoever goes through the pages of a side's ten letters meets each cell once, in the order of addresses.
pub fn pages_list_the_cells()
    ensures { PagesListTheCells }
{}
