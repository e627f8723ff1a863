// The pointer that leads to a new dependent: that of the twin before it, or of its parent.
ghost use Rattle.std.specs.Prelude.{◌+◌, ◌≡◌, ◌<◌, ◌≤◌, length, IfOk, OnOk, IsErrOf, IsTrue};
ghost use Rattle.hal_base.specs.ShelfCalls.{OnlyReads};
ghost use Rattle.free_space.specs.Map.{Alters};
ghost use Rattle.free_space.specs.SideCalls.{StandsForSide, Holds, OnlyChangesAt, Turns};
ghost use Rattle.record_walk.specs.Changes.{set_in_cell};
ghost use Rattle.record_tree.specs.Placing.{HasPointer, pointer_at};
ghost use Rattle.record_tree.specs.Standing.{StandsForRecords};
ghost use Rattle.record_tree.specs.Storing.{ReadsPointer, HasChildPlace, pointer_home};

use crate::Records;
use crate::sides::child_place;
use hal_base::{PageFault, Shelf};
use hal_schema::schemas_are_kept;

impl Records {
    /// Where the pointer leads.
    pub(crate) fn pointer<H: Shelf>(
        &self,
        shelf: &mut H,
        above: u32,
        prior: Option<u32>,
        code: u8,
    ) -> Result<u32, PageFault>
        requires live { IsTrue (H.seen shelf.old).live }
        requires stands { StandsForRecords self.now (H.seen shelf.old) }
        requires coded { 0 < code }
        requires known { code ≤ length self.now.schema.types }
        requires pointer { HasPointer self.now (H.seen shelf.old) above prior code }
        ensures reads { IfOk result (ReadsPointer self.now (H.seen shelf.old) above prior code) }
        ensures leaves { OnlyReads 1 (H.steady shelf.old shelf.new) (IsErrOf result PageFault.Failed) (H.seen shelf.old) (H.seen shelf.new) }
        ensures room { IsErrOf result PageFault.NoRoom → ⊥ }
    {
        schemas_are_kept();
        match prior {
            Some(at) => {
                let cell = self.cells.cell(shelf, at)?;
                Ok(cell.twin)
            }
            None => {
                let cell = self.cells.cell(shelf, above)?;
                let place = child_place(self.schema.types.as_slice(), code);
                let children = cell.children.as_slice();
                if place >= children.len() {
                    return Err(PageFault::Memory);
                }
                Ok(children[place])
            }
        }
    }

    /// Sets the pointer to a home.
    pub(crate) fn set_pointer<H: Shelf>(
        &self,
        shelf: &mut H,
        above: u32,
        prior: Option<u32>,
        code: u8,
        to: u32,
    ) -> Result<(), PageFault>
        requires live { IsTrue (H.seen shelf.old).live }
        requires stands { StandsForSide self.now.cells (H.seen shelf.old) }
        requires coded { 0 < code }
        requires known { code ≤ length self.now.schema.types }
        requires cell { Holds self.now.cells (H.seen shelf.old) (pointer_home above prior) (HasChildPlace self.now.schema prior code) }
        ensures set { OnOk result (Turns self.now.cells self.now.cells (H.seen shelf.old) (H.seen shelf.new)
            (Alters (pointer_home above prior) (set_in_cell (pointer_at self.now.schema above code prior) to))) }
        ensures stands { StandsForSide self.now.cells (H.seen shelf.new) }
        ensures few { (H.seen shelf.new).fetches ≤ (H.seen shelf.old).fetches + 1 }
        ensures leaves { OnlyChangesAt self.now.cells (pointer_home above prior) (H.steady shelf.old shelf.new) (IsErrOf result PageFault.Failed) (H.seen shelf.old) (H.seen shelf.new) }
        ensures room { IsErrOf result PageFault.NoRoom → ⊥ }
    {
        match prior {
            Some(at) => self.cells.set_twin(shelf, at, to),
            None => {
                let place = child_place(self.schema.types.as_slice(), code);
                self.cells.set_child(shelf, above, place as u8, to)
            }
        }
    }
}
