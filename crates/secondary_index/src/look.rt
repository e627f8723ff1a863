// The entries beside a key.
ghost use Rattle.std.specs.Prelude.{◌≡◌, ◌≤◌, length, IfOk, IfSome, IsErrOf, IsTrue};
ghost use Rattle.std.specs.Option.{option_map};
ghost use Rattle.hal_base.specs.ShelfCalls.{OnlyReads};
ghost use Rattle.keyed_sets.specs.Calls.{IsOpened};
ghost use Rattle.secondary_index.specs.Entries.{GivesEntry, entry_above, entry_below, entry_of};

use crate::entry::entry_of;
use crate::{Entry, Psindex};
use hal_base::{Bytes, Memory, PageFault, Shelf};
use std::alloc::Global;

/// The entry that a row is, where there is a row.
fn entry_at(alloc: Global, row: Option<(Bytes, Bytes)>) -> Result<Option<Entry>, Memory>
    requires { IfSome row (λ row. 16 ≤ length row.1) }
    ensures { IfOk result (λ entry. entry ≡ option_map (λ row. entry_of (row.0, row.1)) row) }
{
    match row {
        Some(row) => Ok(Some(entry_of(alloc, row)?)),
        None => Ok(None),
    }
}

impl Psindex {
    /// The first entry whose key is above this one; the first of all, where no key is given.
    pub fn entries_after<H: Shelf>(
        &mut self,
        shelf: &mut H,
        key: Option<&[u8]>,
    ) -> Result<Option<Entry>, PageFault>
        requires live { IsTrue (H.seen shelf.old).live }
        requires opened { IsOpened self.old.rows (H.seen shelf.old) }
        ensures found { IfOk result (GivesEntry self.old.rows (H.seen shelf.old) (entry_above (option_map (λ key. key.now) key.entry))) }
        ensures kept { (self.new ≡ self.old) × IsOpened self.new.rows (H.seen shelf.new) }
        ensures leaves { OnlyReads 2 (H.steady shelf.old shelf.new) (IsErrOf result PageFault.Failed) (H.seen shelf.old) (H.seen shelf.new) }
        ensures room { IsErrOf result PageFault.NoRoom → ⊥ }
    {
        let row = self.rows.next_after(shelf, key)?;
        let entry = entry_at(self.alloc, row)?;
        Ok(entry)
    }

    /// The last entry whose key is below this one.
    pub fn entries_before<H: Shelf>(
        &mut self,
        shelf: &mut H,
        key: &[u8],
    ) -> Result<Option<Entry>, PageFault>
        requires live { IsTrue (H.seen shelf.old).live }
        requires opened { IsOpened self.old.rows (H.seen shelf.old) }
        ensures found { IfOk result (GivesEntry self.old.rows (H.seen shelf.old) (entry_below key.now)) }
        ensures kept { (self.new ≡ self.old) × IsOpened self.new.rows (H.seen shelf.new) }
        ensures leaves { OnlyReads 1 (H.steady shelf.old shelf.new) (IsErrOf result PageFault.Failed) (H.seen shelf.old) (H.seen shelf.new) }
        ensures room { IsErrOf result PageFault.NoRoom → ⊥ }
    {
        let row = self.rows.before(shelf, key)?;
        let entry = entry_at(self.alloc, row)?;
        Ok(entry)
    }
}
