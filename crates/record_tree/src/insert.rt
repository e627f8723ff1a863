// A new row at its place.
ghost use Rattle.std.specs.Prelude.{◌≤◌, ◌+◌, ◌<◌, length, IfOk, IsErrOf, IsTrue};
ghost use Rattle.record_tree.specs.Changing.{ChangesSide, TakesSide, Inserts, insertion_need};
ghost use Rattle.record_tree.specs.Placing.{IsPlace, FitsType, unplaced};
ghost use Rattle.record_tree.specs.Standing.{StandsForRecords};
ghost use Rattle.record_tree.specs.Storing.{ComesAt, HasPlace, RowHasRoom, IsStep, row_need, segment_for};

use crate::new_row::NewRow;
use crate::room::Room;
use crate::{Place, Records};
use hal_base::{Bytes, Ilk, PageFault, Shelf};
use hal_schema::schemas_are_kept;
use record_walk::{
    child_places, first_children_are_inserted, later_children_are_inserted,
    new_segments_are_listed, sides_list_their_cells,
};

impl Records {
    /// Adds a row where its place says, and answers its home.
    pub(crate) fn add_row<H: Shelf>(
        &mut self,
        shelf: &mut H,
        place: Place,
        new: NewRow,
    ) -> Result<u32, PageFault>
        requires live { IsTrue (H.seen shelf.old).live }
        requires stands { StandsForRecords self.old (H.seen shelf.old) }
        requires takes { TakesSide self.old (H.seen shelf.old) }
        requires fits { FitsType self.old.schema (segment_for new) }
        requires step { IsStep new.room }
        requires place { HasPlace self.old (H.seen shelf.old) place new }
        ensures comes { IfOk result (ComesAt self.old self.new place new (H.seen shelf.old) (H.seen shelf.new)) }
        ensures room { IfOk result (RowHasRoom new.room self.old (segment_for new) (H.seen shelf.old) (H.seen shelf.new)) }
        ensures no_room { IsErrOf result PageFault.NoRoom → length (H.seen shelf.old).free < row_need new }
        ensures few { (H.seen shelf.new).fetches ≤ (H.seen shelf.old).fetches + 4 }
        ensures leaves { ChangesSide (row_need new) self.old (H.steady shelf.old shelf.new) (IsErrOf result PageFault.Failed) (H.seen shelf.old) (H.seen shelf.new) }
    {
        match place.parent {
            Some(above) => self.add_dependent(shelf, above, place.prior, new),
            None => self.add_root(shelf, new),
        }
    }

    /// Inserts a row at its place, named by its home, and answers that name. Its cell gets the lowest hole that has place
    /// for it. Four pages are read at most, however large the volume is.
    pub fn insert<H: Shelf>(
        &mut self,
        shelf: &mut H,
        place: Place,
        code: u8,
        content: &Bytes,
    ) -> Result<Ilk, PageFault>
        requires live { IsTrue (H.seen shelf.old).live }
        requires stands { StandsForRecords self.old (H.seen shelf.old) }
        requires takes { TakesSide self.old (H.seen shelf.old) }
        requires fits { FitsType self.old.schema (unplaced code content.now) }
        requires place { IsPlace self.old (H.seen shelf.old) place (unplaced code content.now) }
        ensures inserted { IfOk result (Inserts self.old self.new place (unplaced code content.now) (H.seen shelf.old) (H.seen shelf.new)) }
        ensures no_room { IsErrOf result PageFault.NoRoom → length (H.seen shelf.old).free < insertion_need code }
        ensures few { (H.seen shelf.new).fetches ≤ (H.seen shelf.old).fetches + 4 }
        ensures leaves { ChangesSide (insertion_need code) self.old (H.steady shelf.old shelf.new) (IsErrOf result PageFault.Failed) (H.seen shelf.old) (H.seen shelf.new) }
    {
        child_places();
        first_children_are_inserted();
        later_children_are_inserted();
        new_segments_are_listed();
        schemas_are_kept();
        sides_list_their_cells();
        let content = content.copy()?;
        let new = NewRow {
            code,
            name: None,
            content,
            room: Room::Lowest,
        };
        let at = self.add_row(shelf, place, new)?;
        Ok(self.home_name(at))
    }
}
