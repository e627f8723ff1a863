// Roots, found by their keys.
ghost use Rattle.std.specs.Prelude.{◌≡◌, length, IfOk, IfSome, IsErrOf, IsTrue};
ghost use Rattle.std.specs.Int.{w32, from_be_bytes};
ghost use Rattle.std.specs.Option.{option_map};
ghost use Rattle.hal_base.specs.ShelfCalls.{OnlyReads};
ghost use Rattle.record_tree.specs.Finding.{FindsRoot, is_key, is_behind, BelongsTo};
ghost use Rattle.record_tree.specs.Standing.{StandsForRecords};

use crate::Records;
use hal_base::{Bytes, PageFault, Shelf, get32};
use record_walk::{pointers_lead_on, roots_go_by_key, roots_go_by_rows};

/// The address in the body of a row of the root set.
pub(crate) fn home_in(body: &Bytes) -> u32
    requires { length body.now ≡ 4 }
    ensures { result ≡ from_be_bytes w32 body.now }
{
    get32(body.as_slice(), 0)
}

impl Records {
    /// The home of the root of a key.
    pub fn root<H: Shelf>(&mut self, shelf: &mut H, key: &[u8]) -> Result<Option<u32>, PageFault>
        requires live { IsTrue (H.seen shelf.old).live }
        requires stands { StandsForRecords self.old (H.seen shelf.old) }
        ensures found { IfOk result (FindsRoot self.old (H.seen shelf.old) (is_key key.now)) }
        ensures kept { (self.new ≡ self.old) × StandsForRecords self.new (H.seen shelf.new) }
        ensures leaves { OnlyReads 1 (H.steady shelf.old shelf.new) (IsErrOf result PageFault.Failed) (H.seen shelf.old) (H.seen shelf.new) }
        ensures room { IsErrOf result PageFault.NoRoom → ⊥ }
    {
        roots_go_by_rows();
        pointers_lead_on();
        match self.roots.get(shelf, key)? {
            Some(body) => Ok(Some(home_in(&body))),
            None => Ok(None),
        }
    }

    /// The home of the first root behind a key of the partition; of the first of all, where no key is given.
    pub fn next_root<H: Shelf>(
        &mut self,
        shelf: &mut H,
        key: Option<&[u8]>,
    ) -> Result<Option<u32>, PageFault>
        requires live { IsTrue (H.seen shelf.old).live }
        requires stands { StandsForRecords self.old (H.seen shelf.old) }
        requires belongs { IfSome (option_map (λ key. key.now) key) (BelongsTo self.old.schema self.old.place) }
        ensures found { IfOk result (FindsRoot self.old (H.seen shelf.old) (is_behind self.old.schema (option_map (λ key. key.now) key.entry))) }
        ensures kept { (self.new ≡ self.old) × StandsForRecords self.new (H.seen shelf.new) }
        ensures leaves { OnlyReads 2 (H.steady shelf.old shelf.new) (IsErrOf result PageFault.Failed) (H.seen shelf.old) (H.seen shelf.new) }
        ensures room { IsErrOf result PageFault.NoRoom → ⊥ }
    {
        roots_go_by_rows();
        roots_go_by_key();
        pointers_lead_on();
        match self.roots.next_after(shelf, key)? {
            Some(row) => Ok(Some(home_in(&row.1))),
            None => Ok(None),
        }
    }
}
