// Spans that are cut out of the list: of rows that go, and of records that a unit has copied.
ghost use Rattle.std.specs.Prelude.{◌≡◌, OnOk, IsErrOf, IsTrue};
ghost use Rattle.record_tree.specs.Changing.{ChangesSide};
ghost use Rattle.record_tree.specs.Cutting.{Cuts, LeadsTo, ReadsForSpan, marked, no_cell, no_place};
ghost use Rattle.record_tree.specs.Descending.{fate_of};
ghost use Rattle.record_tree.specs.Standing.{StandsForRecords, HoldsRow};

use crate::descent::{Fate, end_span};
use crate::{Place, Records};
use free_space::no_side_cell_is_at_zero;
use hal_base::{PageFault, Shelf};
use hal_schema::schemas_are_kept;
use record_walk::{changed_sides, cuts_are_spans, rows_come_and_go};

impl Records {
    /// Cuts out the row at a home and all rows below it, whose cells have a fate.
    fn cut<H: Shelf>(
        &mut self,
        shelf: &mut H,
        place: Place,
        at: u32,
        fate: Fate,
    ) -> Result<(), PageFault>
        requires live { IsTrue (H.seen shelf.old).live }
        requires stands { StandsForRecords self.old (H.seen shelf.old) }
        requires leads { LeadsTo self.old (H.seen shelf.old) place at }
        ensures cut { OnOk result (Cuts (fate_of fate) self.old self.new place at (H.seen shelf.old) (H.seen shelf.new)) }
        ensures few { ReadsForSpan self.old at (H.seen shelf.old) (H.seen shelf.new) }
        ensures leaves { ChangesSide 0 self.old (H.steady shelf.old shelf.new) (IsErrOf result PageFault.Failed) (H.seen shelf.old) (H.seen shelf.new) }
        ensures room { IsErrOf result PageFault.NoRoom → ⊥ }
    {
        schemas_are_kept();
        cuts_are_spans();
        changed_sides();
        rows_come_and_go();
        no_side_cell_is_at_zero();
        let cell = self.cells.cell(shelf, at)?;
        self.part(shelf, place, at, &cell)?;
        end_span(self.alloc, &mut self.cells, shelf, at, fate)
    }

    /// Removes the row at a home and all rows below it: their cells become holes, and the pointer that led to the row leads
    /// to its next twin (IMS: DLET). Of a root the row of the root set goes. The place says the home of the parent and of
    /// the twin before it, as a cell doesn't point back.
    pub fn remove<H: Shelf>(
        &mut self,
        shelf: &mut H,
        place: Place,
        at: u32,
    ) -> Result<(), PageFault>
        requires live { IsTrue (H.seen shelf.old).live }
        requires stands { StandsForRecords self.old (H.seen shelf.old) }
        requires leads { LeadsTo self.old (H.seen shelf.old) place at }
        ensures removed { OnOk result (Cuts no_cell self.old self.new place at (H.seen shelf.old) (H.seen shelf.new)) }
        ensures few { ReadsForSpan self.old at (H.seen shelf.old) (H.seen shelf.new) }
        ensures leaves { ChangesSide 0 self.old (H.steady shelf.old shelf.new) (IsErrOf result PageFault.Failed) (H.seen shelf.old) (H.seen shelf.new) }
        ensures room { IsErrOf result PageFault.NoRoom → ⊥ }
    {
        self.cut(shelf, place, at, Fate::Hole)
    }

    /// Takes the record of a root out, which a unit of a reorganization has copied to the other side: the row of the root
    /// set goes, and each cell of the record gets the mark. Until the reorganization ends none of them becomes a hole.
    pub fn retire<H: Shelf>(&mut self, shelf: &mut H, root: u32) -> Result<(), PageFault>
        requires live { IsTrue (H.seen shelf.old).live }
        requires stands { StandsForRecords self.old (H.seen shelf.old) }
        requires row { HoldsRow self.old (H.seen shelf.old) root (λ cell. cell.code ≡ 1) }
        ensures retired { OnOk result (Cuts marked self.old self.new no_place root (H.seen shelf.old) (H.seen shelf.new)) }
        ensures few { ReadsForSpan self.old root (H.seen shelf.old) (H.seen shelf.new) }
        ensures leaves { ChangesSide 0 self.old (H.steady shelf.old shelf.new) (IsErrOf result PageFault.Failed) (H.seen shelf.old) (H.seen shelf.new) }
        ensures room { IsErrOf result PageFault.NoRoom → ⊥ }
    {
        let place = Place {
            parent: None,
            prior: None,
        };
        self.cut(shelf, place, root, Fate::Marked)
    }
}
