// The content of a row is replaced.
ghost use Rattle.std.specs.Prelude.{◌≤◌, ◌+◌, ◌≡◌, OnOk, OnErr, IsErrOf, IsTrue};
ghost use Rattle.hal_base.specs.ShelfCalls.{SameShelf};
ghost use Rattle.record_tree.specs.Changing.{ChangesSide, Replaces};
ghost use Rattle.record_tree.specs.Placing.{KeepsKey};
ghost use Rattle.record_tree.specs.Standing.{StandsForRecords, HoldsRow};

use crate::Records;
use hal_base::{Bytes, PageFault, Shelf};
use record_walk::{changed_sides, replaced_content_is_listed};

impl Records {
    /// Replaces the content of the row at a home; a root keeps its key. After a fault the shelf is as it was.
    pub fn replace<H: Shelf>(
        &mut self,
        shelf: &mut H,
        at: u32,
        content: &Bytes,
    ) -> Result<(), PageFault>
        requires live { IsTrue (H.seen shelf.old).live }
        requires stands { StandsForRecords self.old (H.seen shelf.old) }
        requires row { HoldsRow self.old (H.seen shelf.old) at (KeepsKey self.old.schema at content.now) }
        ensures replaced { OnOk result (Replaces self.old at content.now (H.seen shelf.old) (H.seen shelf.new)) }
        ensures kept { (self.new ≡ self.old) × StandsForRecords self.new (H.seen shelf.new) }
        ensures few { (H.seen shelf.new).fetches ≤ (H.seen shelf.old).fetches + 1 }
        ensures leaves { ChangesSide 0 self.old (H.steady shelf.old shelf.new) (IsErrOf result PageFault.Failed) (H.seen shelf.old) (H.seen shelf.new) }
        ensures fails { OnErr result (SameShelf (H.seen shelf.old) (H.seen shelf.new)) × (IsErrOf result PageFault.NoRoom → ⊥) }
    {
        changed_sides();
        replaced_content_is_listed();
        let content = content.copy()?;
        self.cells.set_content(shelf, at, content)
    }
}
