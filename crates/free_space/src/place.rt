// A new cell in the lowest hole in which it has place.
ghost use Rattle.std.specs.Prelude.{◌≡◌, ◌+◌, ◌≤◌, [], length, IfOk, MatchResult, OnOk, OnErr, IsErrOf, IsTrue};
ghost use Rattle.hal_base.specs.ShelfCalls.{SameShelf, OnlyChanges};
ghost use Rattle.free_space.specs.Placing.{length_of, NoHoleFits, PlacesIn};
ghost use Rattle.free_space.specs.Store.{StandsFor, StaysOpen, Relays, PlacesAt, GetsEmpty, Grows, IsSaid, IsTyped};

use crate::CellStore;
use crate::tiles::first_gap;
use hal_base::{BLOCK, PageFault, Shelf};
use segment_blocks::{Cell, cell_size};

impl CellStore {
    fn place_in<H: Shelf>(
        &mut self,
        shelf: &mut H,
        page: u16,
        cell: &Cell,
    ) -> Result<u32, PageFault>
        requires live { IsTrue (H.seen shelf.old).live }
        requires stands { StandsFor self.old (H.seen shelf.old) }
        requires typed { IsTyped self.old.shapes cell.now }
        requires content { length cell.now.content ≤ 2016 }
        ensures places_in { IfOk result (λ at. Relays self.old (H.seen shelf.old) (H.seen shelf.new) (PlacesIn self.old.set cell.now at page)) }
        ensures unchanged { OnErr result (SameShelf (H.seen shelf.old) (H.seen shelf.new)) }
        ensures room { result ≡ Err PageFault.NoRoom → ⊥ }
        ensures stays { StaysOpen self.old self.new (H.seen shelf.new) }
        ensures leaves { OnlyChanges self.old.set (H.steady shelf.old shelf.new) (IsErrOf result PageFault.Failed) (H.seen shelf.old) (H.seen shelf.new) }
        ensures few { (H.seen shelf.new).fetches ≤ (H.seen shelf.old).fetches + 1 }
    {
        let len = cell_size(self.shape_for(cell));
        let mut block = [0; BLOCK];
        let tiles = self.read_page(shelf, page, &mut block)?;
        let found = tiles.as_slice();
        let Some(gap) = first_gap(found, len) else {
            return Err(PageFault::Memory);
        };
        self.fill_page(shelf, page, &mut block, found, gap, cell)
    }

    /// Stores a cell in the lowest hole in which it has place, and answers its address. `NoRoom` comes where no hole
    /// has place for it and no block is free.
    pub fn place<H: Shelf>(&mut self, shelf: &mut H, cell: &Cell) -> Result<u32, PageFault>
        requires live { IsTrue (H.seen shelf.old).live }
        requires stands { StandsFor self.old (H.seen shelf.old) }
        requires takes { IsTrue ((H.seen shelf.old).takes self.old.set 1) }
        requires typed { IsTyped self.old.shapes cell.now }
        requires content { length cell.now.content ≤ 2016 }
        ensures placed { MatchResult result (PlacesAt self.old cell.now (H.seen shelf.old) (H.seen shelf.new))
            (λ _. GetsEmpty self.old (H.seen shelf.old) (H.seen shelf.new)) }
        ensures no_room { IsErrOf result PageFault.NoRoom → ((H.seen shelf.old).free ≡ []) × SameShelf (H.seen shelf.old) (H.seen shelf.new)
            × IsSaid self.old (H.seen shelf.old) (NoHoleFits (length_of cell.now)) }
        ensures stays { StaysOpen self.old self.new (H.seen shelf.new) }
        ensures leaves { Grows 1 1 self.old.set (H.steady shelf.old shelf.new) (IsErrOf result PageFault.Failed) (H.seen shelf.old) (H.seen shelf.new) }
    {
        let len = cell_size(self.shape_for(cell));
        match self.spaces.first_page(len) {
            Some(page) => self.place_in(shelf, page as u16, cell),
            None => {
                let page = self.add_page(shelf)?;
                self.place_in(shelf, page, cell)
            }
        }
    }
}
