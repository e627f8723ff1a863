// A new row behind all its twins, whose cell goes past all others.
ghost use Rattle.std.specs.Prelude.{◌≤◌, ◌+◌, ◌≢◌, ◌<◌, Some, length, IfOk, IsErrOf, IsTrue};
ghost use Rattle.record_tree.specs.Changing.{ChangesSide, TakesSide, ComesLast, LoadsRow, loading_need};
ghost use Rattle.record_tree.specs.Placing.{IsPlaceLast, FitsType, unplaced};
ghost use Rattle.record_tree.specs.Standing.{StandsForRecords};

use crate::new_row::NewRow;
use crate::room::Room;
use crate::{Place, Records};
use hal_base::{Bytes, Ilk, PageFault, Shelf};
use hal_schema::{Row, schemas_are_kept};
use record_walk::{
    child_places, first_children_are_inserted, new_segments_are_listed,
    new_twins_stand_behind_spans, sides_list_their_cells,
};

impl Records {
    /// Adds a row that keeps its name, behind all its twins, and answers its home. Its cell goes past all others of its data
    /// set. Of each `fbff` pages there one is left empty, and of each page `fspf` in a hundred bytes (IMS: FRSPC).
    pub fn append<H: Shelf>(
        &mut self,
        shelf: &mut H,
        place: Place,
        row: &Row,
        fbff: u8,
        fspf: u8,
    ) -> Result<u32, PageFault>
        requires live { IsTrue (H.seen shelf.old).live }
        requires stands { StandsForRecords self.old (H.seen shelf.old) }
        requires takes { TakesSide self.old (H.seen shelf.old) }
        requires fits { FitsType self.old.schema (unplaced row.now.code row.now.content) }
        requires place { IsPlaceLast self.old (H.seen shelf.old) place (unplaced row.now.code row.now.content) }
        requires step { fbff ≢ 1 }
        ensures appended { IfOk result (ComesLast fbff fspf self.old self.new place (Some row.now.name) (unplaced row.now.code row.now.content)
            (H.seen shelf.old) (H.seen shelf.new)) }
        ensures no_room { IsErrOf result PageFault.NoRoom → length (H.seen shelf.old).free < loading_need fbff row.now.code }
        ensures few { (H.seen shelf.new).fetches ≤ (H.seen shelf.old).fetches + 4 }
        ensures leaves { ChangesSide (loading_need fbff row.now.code) self.old (H.steady shelf.old shelf.new) (IsErrOf result PageFault.Failed)
            (H.seen shelf.old) (H.seen shelf.new) }
    {
        child_places();
        first_children_are_inserted();
        new_segments_are_listed();
        new_twins_stand_behind_spans();
        schemas_are_kept();
        sides_list_their_cells();
        let content = row.content.copy()?;
        let new = NewRow {
            code: row.code,
            name: Some(row.name),
            content,
            room: Room::Past { fbff, fspf },
        };
        self.add_row(shelf, place, new)
    }

    /// Adds a row as `append` does, but named by its home, and answers that name.
    pub fn load_row<H: Shelf>(
        &mut self,
        shelf: &mut H,
        place: Place,
        code: u8,
        content: &Bytes,
        fbff: u8,
        fspf: u8,
    ) -> Result<Ilk, PageFault>
        requires live { IsTrue (H.seen shelf.old).live }
        requires stands { StandsForRecords self.old (H.seen shelf.old) }
        requires takes { TakesSide self.old (H.seen shelf.old) }
        requires fits { FitsType self.old.schema (unplaced code content.now) }
        requires place { IsPlaceLast self.old (H.seen shelf.old) place (unplaced code content.now) }
        requires step { fbff ≢ 1 }
        ensures loaded { IfOk result (LoadsRow fbff fspf self.old self.new place (unplaced code content.now) (H.seen shelf.old) (H.seen shelf.new)) }
        ensures no_room { IsErrOf result PageFault.NoRoom → length (H.seen shelf.old).free < loading_need fbff code }
        ensures few { (H.seen shelf.new).fetches ≤ (H.seen shelf.old).fetches + 4 }
        ensures leaves { ChangesSide (loading_need fbff code) self.old (H.steady shelf.old shelf.new) (IsErrOf result PageFault.Failed) (H.seen shelf.old) (H.seen shelf.new) }
    {
        child_places();
        first_children_are_inserted();
        new_segments_are_listed();
        new_twins_stand_behind_spans();
        schemas_are_kept();
        sides_list_their_cells();
        let content = content.copy()?;
        let new = NewRow {
            code,
            name: None,
            content,
            room: Room::Past { fbff, fspf },
        };
        let at = self.add_row(shelf, place, new)?;
        Ok(self.home_name(at))
    }
}
