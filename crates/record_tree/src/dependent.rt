// A new dependent: its cell is stored, and then the pointer is set to it.
ghost use Rattle.std.specs.Prelude.{◌≤◌, ◌+◌, ◌<◌, length, IfOk, IsErrOf, IsTrue};
ghost use Rattle.record_tree.specs.Changing.{ChangesSide, TakesSide};
ghost use Rattle.record_tree.specs.Placing.{FitsType, HasPointer};
ghost use Rattle.record_tree.specs.Standing.{StandsForRecords};
ghost use Rattle.record_tree.specs.Storing.{RowHasRoom, IsStep, Joins, room_need, segment_for};

use crate::Records;
use crate::new_row::NewRow;
use free_space::no_side_cell_is_at_zero;
use hal_base::{PageFault, Shelf};
use hal_schema::schemas_are_kept;
use record_walk::{changed_sides, child_places};

impl Records {
    /// Adds a dependent below the row at a home, behind the twin before it if there is one, else as its first child of
    /// that type; and answers its home.
    pub(crate) fn add_dependent<H: Shelf>(
        &mut self,
        shelf: &mut H,
        above: u32,
        prior: Option<u32>,
        new: NewRow,
    ) -> Result<u32, PageFault>
        requires live { IsTrue (H.seen shelf.old).live }
        requires stands { StandsForRecords self.old (H.seen shelf.old) }
        requires takes { TakesSide self.old (H.seen shelf.old) }
        requires fits { FitsType self.old.schema (segment_for new) }
        requires step { IsStep new.room }
        requires pointer { HasPointer self.old (H.seen shelf.old) above prior new.code }
        ensures joins { IfOk result (Joins self.old self.new above prior new (H.seen shelf.old) (H.seen shelf.new)) }
        ensures room { IfOk result (RowHasRoom new.room self.old (segment_for new) (H.seen shelf.old) (H.seen shelf.new)) }
        ensures no_room { IsErrOf result PageFault.NoRoom → length (H.seen shelf.old).free < room_need new.room }
        ensures few { (H.seen shelf.new).fetches ≤ (H.seen shelf.old).fetches + 4 }
        ensures leaves { ChangesSide (room_need new.room) self.old (H.steady shelf.old shelf.new) (IsErrOf result PageFault.Failed) (H.seen shelf.old) (H.seen shelf.new) }
    {
        changed_sides();
        child_places();
        schemas_are_kept();
        no_side_cell_is_at_zero();
        let code = new.code;
        let to = self.pointer(shelf, above, prior, code)?;
        let at = self.store(shelf, new, to)?;
        self.set_pointer(shelf, above, prior, code, at)?;
        Ok(at)
    }
}
