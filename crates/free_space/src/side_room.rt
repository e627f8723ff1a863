// A cell that comes to a side or leaves it.
ghost use Rattle.std.specs.Prelude.{◌≡◌, ◌≢◌, ◌≤◌, false, length, MatchResult, OnOk, OnErr, IsErrOf, IsTrue};
ghost use Rattle.hal_base.specs.ShelfCalls.{SameShelf};
ghost use Rattle.free_space.specs.SideCalls.{StandsForSide, StaysOpenOn, Holds, KeepsCells, DropsCell, PlacesCell, AppendsCell, HasNoRoom, HasNoRoomBehind, WritesAt, GrowsFor, opened_for, set_of};
ghost use Rattle.free_space.specs.Store.{IsTyped};

use crate::SideCells;
use crate::side::place_at;
use hal_base::{PageFault, Shelf};
use segment_blocks::Cell;

impl SideCells {
    /// Stores a cell in the data set of its type's letter, in the lowest hole there in which it has place, and answers its
    /// address. `NoRoom` comes where no hole has place for it and no block is free.
    pub fn place<H: Shelf>(&mut self, shelf: &mut H, cell: &Cell) -> Result<u32, PageFault>
        requires live { IsTrue (H.seen shelf.old).live }
        requires stands { StandsForSide self.old (H.seen shelf.old) }
        requires takes { IsTrue ((H.seen shelf.old).takes (set_of self.old cell.now) 1) }
        requires typed { IsTyped self.old.shapes cell.now }
        requires content { length cell.now.content ≤ 2016 }
        ensures placed { MatchResult result (PlacesCell self.old self.new cell.now (H.seen shelf.old) (H.seen shelf.new))
            (λ _. KeepsCells self.old self.new cell.now (H.seen shelf.old) (H.seen shelf.new)) }
        ensures no_room { IsErrOf result PageFault.NoRoom → HasNoRoom self.old cell.now (H.seen shelf.old) (H.seen shelf.new) }
        ensures stays { StaysOpenOn self.old self.new (H.seen shelf.new) }
        ensures leaves { GrowsFor 1 1 self.old cell.now (H.steady shelf.old shelf.new) (IsErrOf result PageFault.Failed) (H.seen shelf.old) (H.seen shelf.new) }
    {
        let place = self.place_of(cell);
        self.stores[place].place(shelf, cell)
    }

    /// Stores a cell in the data set of its type's letter, past the last cell there, at an address above all others of
    /// that letter, and answers it. Of each `fbff` pages one is left empty, and of each page `fspf` in a hundred bytes (IMS:
    /// FRSPC). `NoRoom` comes where a new page is needed and no block is free; a page that was to be left empty may have
    /// been added before.
    pub fn append<H: Shelf>(
        &mut self,
        shelf: &mut H,
        cell: &Cell,
        fbff: u8,
        fspf: u8,
    ) -> Result<u32, PageFault>
        requires live { IsTrue (H.seen shelf.old).live }
        requires stands { StandsForSide self.old (H.seen shelf.old) }
        requires takes { IsTrue ((H.seen shelf.old).takes (set_of self.old cell.now) 1) }
        requires typed { IsTyped self.old.shapes cell.now }
        requires content { length cell.now.content ≤ 2016 }
        requires step { fbff ≢ 1 }
        ensures appended { MatchResult result (AppendsCell self.old self.new cell.now fbff fspf (H.seen shelf.old) (H.seen shelf.new))
            (λ _. KeepsCells self.old self.new cell.now (H.seen shelf.old) (H.seen shelf.new)) }
        ensures no_room { IsErrOf result PageFault.NoRoom → HasNoRoomBehind self.old cell.now fbff fspf (H.seen shelf.old) }
        ensures stays { StaysOpenOn self.old self.new (H.seen shelf.new) }
        ensures leaves { GrowsFor (opened_for self.old cell.now fbff (H.seen shelf.old)) 1 self.old cell.now (H.steady shelf.old shelf.new)
            (IsErrOf result PageFault.Failed) (H.seen shelf.old) (H.seen shelf.new) }
    {
        let place = self.place_of(cell);
        self.stores[place].append(shelf, cell, fbff, fspf)
    }

    /// Makes a hole of the cell at an address, and of the holes that touch it.
    pub fn give_back<H: Shelf>(&mut self, shelf: &mut H, at: u32) -> Result<(), PageFault>
        requires live { IsTrue (H.seen shelf.old).live }
        requires stands { StandsForSide self.old (H.seen shelf.old) }
        requires cell { Holds self.old (H.seen shelf.old) at (λ cell. cell.copied ≡ false) }
        ensures drops { DropsCell result self.old self.new at (H.seen shelf.old) (H.seen shelf.new) }
        ensures stays { StaysOpenOn self.old self.new (H.seen shelf.new) }
        ensures leaves { WritesAt 1 self.old at (H.steady shelf.old shelf.new) (IsErrOf result PageFault.Failed) (H.seen shelf.old) (H.seen shelf.new) }
    {
        let place = place_at(at);
        if place >= self.stores.len() {
            return Err(PageFault::Memory);
        }
        self.stores[place].give_back(shelf, at)
    }
}
