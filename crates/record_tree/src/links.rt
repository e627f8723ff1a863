// Cells, and what their pointers lead to.
ghost use Rattle.std.specs.Prelude.{◌≡◌, ◌≢◌, ◌<◌, ◌≤◌, Some, length, IfOk, IsErrOf, IsTrue, ⊤};
ghost use Rattle.hal_base.specs.ShelfCalls.{OnlyReads};
ghost use Rattle.hal_schema.specs.SegType.{parent_code};
ghost use Rattle.free_space.specs.SideCalls.{Finds};
ghost use Rattle.record_walk.specs.Leads.{pointed};
ghost use Rattle.record_tree.specs.Finding.{FindsChild, FindsTwin};
ghost use Rattle.record_tree.specs.Standing.{StandsForRecords, HoldsRow};

use crate::Records;
use crate::sides::child_place;
use hal_base::{PageFault, Shelf};
use record_walk::{child_places, children_are_first, pointers_lead_on, twins_are_next};
use segment_blocks::Cell;

/// What an address in a cell leads to.
fn pointed(to: u32) -> Option<u32>
    ensures { result ≡ pointed to }
{
    if to == 0 { None } else { Some(to) }
}

impl Records {
    /// The cell of the row at a home.
    pub fn cell<H: Shelf>(&self, shelf: &mut H, at: u32) -> Result<Cell, PageFault>
        requires live { IsTrue (H.seen shelf.old).live }
        requires stands { StandsForRecords self.now (H.seen shelf.old) }
        requires row { HoldsRow self.now (H.seen shelf.old) at (λ _. ⊤) }
        ensures cell { IfOk result (λ cell. Finds self.now.cells (H.seen shelf.old) at (Some cell)) }
        ensures stands { StandsForRecords self.now (H.seen shelf.new) }
        ensures leaves { OnlyReads 1 (H.steady shelf.old shelf.new) (IsErrOf result PageFault.Failed) (H.seen shelf.old) (H.seen shelf.new) }
        ensures room { IsErrOf result PageFault.NoRoom → ⊥ }
    {
        self.cells.cell(shelf, at)
    }

    /// The home of the first child of a child type, below the row at a home; `None` exactly where it has none.
    pub fn child<H: Shelf>(
        &self,
        shelf: &mut H,
        at: u32,
        code: u8,
    ) -> Result<Option<u32>, PageFault>
        requires live { IsTrue (H.seen shelf.old).live }
        requires stands { StandsForRecords self.now (H.seen shelf.old) }
        requires above { 0 < code }
        requires known { code ≤ length self.now.schema.types }
        requires row { HoldsRow self.now (H.seen shelf.old) at (λ cell. parent_code self.now.schema.types code ≡ Some cell.code) }
        ensures found { IfOk result (FindsChild self.now (H.seen shelf.old) at code) }
        ensures stands { StandsForRecords self.now (H.seen shelf.new) }
        ensures leaves { OnlyReads 1 (H.steady shelf.old shelf.new) (IsErrOf result PageFault.Failed) (H.seen shelf.old) (H.seen shelf.new) }
        ensures room { IsErrOf result PageFault.NoRoom → ⊥ }
    {
        child_places();
        children_are_first();
        pointers_lead_on();
        let cell = self.cells.cell(shelf, at)?;
        let place = child_place(self.schema.types.as_slice(), code);
        let children = cell.children.as_slice();
        if place >= children.len() {
            return Err(PageFault::Memory);
        }
        Ok(pointed(children[place]))
    }

    /// The home of the next twin of the row at a home, which is a dependent; `None` exactly where it has none. What a PHIDAM
    /// root has as its twin means nothing.
    pub fn twin<H: Shelf>(&self, shelf: &mut H, at: u32) -> Result<Option<u32>, PageFault>
        requires live { IsTrue (H.seen shelf.old).live }
        requires stands { StandsForRecords self.now (H.seen shelf.old) }
        requires row { HoldsRow self.now (H.seen shelf.old) at (λ cell. cell.code ≢ 1) }
        ensures found { IfOk result (FindsTwin self.now (H.seen shelf.old) at) }
        ensures stands { StandsForRecords self.now (H.seen shelf.new) }
        ensures leaves { OnlyReads 1 (H.steady shelf.old shelf.new) (IsErrOf result PageFault.Failed) (H.seen shelf.old) (H.seen shelf.new) }
        ensures room { IsErrOf result PageFault.NoRoom → ⊥ }
    {
        pointers_lead_on();
        twins_are_next();
        let cell = self.cells.cell(shelf, at)?;
        Ok(pointed(cell.twin))
    }
}
