// Where a cell gets room.
ghost use Rattle.std.specs.Prelude.{◌+◌, ◌≡◌, ◌<◌, ◌≤◌, length, IfOk, IsErrOf, IsTrue};
ghost use Rattle.free_space.specs.Store.{IsTyped};
ghost use Rattle.record_tree.specs.Changing.{ChangesSide, TakesSide};
ghost use Rattle.record_tree.specs.Standing.{StandsForRecords};
ghost use Rattle.record_tree.specs.Storing.{StoresCell, HasRoom, IsStep, room_need};

use crate::Records;
use hal_base::{PageFault, Shelf};
use segment_blocks::Cell;

/// Where a cell gets room in its data set.
#[derive(Clone, Copy, Debug, PartialEq, Eq)]
pub(crate) enum Room {
    /// In the lowest hole that has place for it.
    Lowest,
    /// Past all cells. Of each `fbff` pages one is left empty, and of each page `fspf` in a hundred bytes (IMS: FRSPC).
    Past { fbff: u8, fspf: u8 },
}

impl Records {
    /// Stores a cell, to which no pointer leads yet, and answers its address.
    pub(crate) fn hold<H: Shelf>(
        &mut self,
        shelf: &mut H,
        cell: &Cell,
        room: Room,
    ) -> Result<u32, PageFault>
        requires live { IsTrue (H.seen shelf.old).live }
        requires stands { StandsForRecords self.old (H.seen shelf.old) }
        requires takes { TakesSide self.old (H.seen shelf.old) }
        requires typed { IsTyped self.old.cells.shapes cell.now }
        requires content { length cell.now.content ≤ 2016 }
        requires step { IsStep room }
        ensures stored { IfOk result (StoresCell self.old self.new cell.now (H.seen shelf.old) (H.seen shelf.new)) }
        ensures room { IfOk result (HasRoom room self.old cell.now (H.seen shelf.old) (H.seen shelf.new)) }
        ensures no_room { IsErrOf result PageFault.NoRoom → length (H.seen shelf.old).free < room_need room }
        ensures few { (H.seen shelf.new).fetches ≤ (H.seen shelf.old).fetches + 1 }
        ensures leaves { ChangesSide (room_need room) self.old (H.steady shelf.old shelf.new) (IsErrOf result PageFault.Failed) (H.seen shelf.old) (H.seen shelf.new) }
    {
        match room {
            Room::Lowest => self.cells.place(shelf, cell),
            Room::Past { fbff, fspf } => self.cells.append(shelf, cell, fbff, fspf),
        }
    }
}
