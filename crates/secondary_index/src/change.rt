// Entries that come and go.
ghost use Rattle.std.specs.Prelude.{◌≡◌, true, false, OnOk, OnErr, IfOk, IfErr, IsErrOf, IsTrue};
ghost use Rattle.hal_base.specs.ShelfCalls.{SameShelf};
ghost use Rattle.keyed_sets.specs.Calls.{IsOpened, PutsIn, Removes, StaysOpen, Writes, Grows};
ghost use Rattle.secondary_index.specs.Changes.{Moves, MoveFails};
ghost use Rattle.secondary_index.specs.Entries.{entry_row, FitsIndex, KeyIs};
ghost use Rattle.secondary_index.specs.Faults.{AddFails};

use crate::entry::write_body;
use crate::{AddFault, Entry, Psindex};
use hal_base::{PageFault, Shelf};

impl Psindex {
    /// Adds an entry, unless another has its key. `NoRoom` where a page is needed and no block is free. After another
    /// fault, but `Taken`, the shelf is to be forgotten.
    pub fn add<H: Shelf>(&mut self, shelf: &mut H, entry: &Entry) -> Result<(), AddFault>
        requires live { IsTrue (H.seen shelf.old).live }
        requires takes { IsTrue ((H.seen shelf.old).takes self.old.rows.set 2) }
        requires opened { IsOpened self.old.rows (H.seen shelf.old) }
        requires fits { FitsIndex self.old.rows entry.now }
        ensures not_taken { OnOk result (KeyIs false self.old.rows entry.now.key (H.seen shelf.old)) }
        ensures added { OnOk result (PutsIn self.old.rows (entry_row entry.now) (H.seen shelf.old) (H.seen shelf.new)) }
        ensures opened { StaysOpen self.old.rows self.new.rows (H.seen shelf.new) }
        ensures target { self.new.target ≡ self.old.target }
        ensures leaves { Grows self.old.rows (H.steady shelf.old shelf.new) (IsErrOf result AddFault.Failed) (H.seen shelf.old) (H.seen shelf.new) }
        ensures fails { IfErr result (AddFails self.old.rows entry.now (H.seen shelf.old) (H.seen shelf.new)) }
    {
        let body = write_body(self.alloc, entry.eps, entry.root.as_slice())?;
        let key = entry.key.as_slice();
        if !self.rows.insert(shelf, key, body.as_slice())? {
            return Err(AddFault::Taken);
        }
        Ok(())
    }

    /// Takes the entry of one key out and adds another, unless a third has its key. `NoRoom` where a page is needed and no
    /// block is free. After a fault the shelf is to be forgotten.
    pub fn move_entry<H: Shelf>(
        &mut self,
        shelf: &mut H,
        old: &[u8],
        entry: &Entry,
    ) -> Result<(), AddFault>
        requires live { IsTrue (H.seen shelf.old).live }
        requires takes { IsTrue ((H.seen shelf.old).takes self.old.rows.set 2) }
        requires opened { IsOpened self.old.rows (H.seen shelf.old) }
        requires fits { FitsIndex self.old.rows entry.now }
        ensures moved { OnOk result (Moves self.old.rows old.now entry.now (H.seen shelf.old) (H.seen shelf.new)) }
        ensures opened { StaysOpen self.old.rows self.new.rows (H.seen shelf.new) }
        ensures target { self.new.target ≡ self.old.target }
        ensures leaves { Grows self.old.rows (H.steady shelf.old shelf.new) (IsErrOf result AddFault.Failed) (H.seen shelf.old) (H.seen shelf.new) }
        ensures fails { IfErr result (MoveFails self.old.rows old.now entry.now (H.seen shelf.old) (H.seen shelf.new)) }
    {
        self.rows.remove(shelf, old)?;
        self.add(shelf, entry)
    }

    /// Takes the entry of this key away, and says whether there was one.
    pub fn remove<H: Shelf>(&mut self, shelf: &mut H, key: &[u8]) -> Result<bool, PageFault>
        requires live { IsTrue (H.seen shelf.old).live }
        requires opened { IsOpened self.old.rows (H.seen shelf.old) }
        ensures removed { IfOk result (Removes self.old.rows (H.seen shelf.old) (H.seen shelf.new) key.now) }
        ensures opened { StaysOpen self.old.rows self.new.rows (H.seen shelf.new) }
        ensures target { self.new.target ≡ self.old.target }
        ensures leaves { Writes self.old.rows (H.steady shelf.old shelf.new) (IsErrOf result PageFault.Failed) (H.seen shelf.old) (H.seen shelf.new) }
        ensures fails { OnErr result (SameShelf (H.seen shelf.old) (H.seen shelf.new)) × (IsErrOf result PageFault.NoRoom → ⊥) }
    {
        self.rows.remove(shelf, key)
    }
}
