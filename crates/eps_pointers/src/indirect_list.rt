// The indirect list of a partition, over any shelf.
ghost use Rattle.std.specs.Prelude.{◌≡◌, ℕ, length, OnOk, OnErr, IfOk, IfErr, IfSome, IsErrOf, IsTrue};
ghost use Rattle.hal_base.specs.ShelfCalls.{OnlyReads, SameShelf};
ghost use Rattle.keyed_sets.specs.Calls.{IsOpened, PutsIn, PutFails, Removes, StaysOpen, Writes, Grows};
ghost use Rattle.keyed_sets.specs.Rule.{Breaks};
ghost use Rattle.eps_pointers.specs.Layout.{list_key};
ghost use Rattle.eps_pointers.specs.Listed.{list_set, list_shape, list_row, FindsEntry};

use crate::pointer::{Ile, entry_of, list_key, write_ile};
use hal_base::{Ilk, PageFault, SetId, Shelf, StoreFault};
use keyed_sets::KeyedSet;
use std::alloc::Global;

/// The indirect list of one partition, in the pages of its data set L: a map from a segment's name and the code of its
/// type to the entry that says where its cell is. It is opened anew where the shelf went back to its last commit, and
/// where another object changed the pages. IMS: ILDS.
#[derive(Debug, Drop)]
pub struct IndirectList {
    pub(crate) rows: KeyedSet,
    ghost shape: { rows.shape ≡ list_shape },
}

impl IndirectList {
    /// Opens the list of a partition, by its number. It reads all pages of the data set. `BadTile` names the first page
    /// that isn't one of such rows or whose keys cross those of a page before it, and in it the offset of the first row
    /// that isn't above the one before, 16 where there is none.
    pub fn open<H: Shelf>(
        alloc: Global,
        shelf: &mut H,
        part: u16,
    ) -> Result<IndirectList, StoreFault>
        requires { IsTrue (H.seen shelf.old).live }
        ensures opened { IfOk result (λ list. (list.rows.set ≡ list_set part) × IsOpened list.rows (H.seen shelf.new)) }
        ensures broken { (page offset : ℕ) → result ≡ Err (StoreFault.BadTile page offset) → IfSome ((H.seen shelf.old).pages (list_set part)) (Breaks 9 6 page offset) }
        ensures leaves { OnlyReads (length ((H.seen shelf.old).places (list_set part))) (H.steady shelf.old shelf.new) (IsErrOf result StoreFault.Failed) (H.seen shelf.old) (H.seen shelf.new) }
    {
        let set = SetId {
            part,
            number: 0,
            letter: b'L',
        };
        let rows = KeyedSet::open(alloc, shelf, set, 9, 6)?;
        Ok(IndirectList { rows })
    }

    /// The entry under a segment's name and its type's code.
    pub fn find<H: Shelf>(
        &mut self,
        shelf: &mut H,
        ilk: Ilk,
        code: u8,
    ) -> Result<Option<Ile>, PageFault>
        requires live { IsTrue (H.seen shelf.old).live }
        requires opened { IsOpened self.old.rows (H.seen shelf.old) }
        ensures found { IfOk result (FindsEntry self.old.rows.set (H.seen shelf.old) ilk code) }
        ensures kept { (self.new ≡ self.old) × IsOpened self.new.rows (H.seen shelf.new) }
        ensures leaves { OnlyReads 1 (H.steady shelf.old shelf.new) (IsErrOf result PageFault.Failed) (H.seen shelf.old) (H.seen shelf.new) }
        ensures room { IsErrOf result PageFault.NoRoom → ⊥ }
    {
        match self.rows.get(shelf, &list_key(ilk, code))? {
            Some(body) => Ok(Some(entry_of(body.as_slice()))),
            None => Ok(None),
        }
    }

    /// Sets the entry under a segment's name and its type's code, over the one that stands there. `NoRoom` where a page is
    /// needed and no block is free. After another fault the shelf is to be forgotten.
    pub fn set<H: Shelf>(
        &mut self,
        shelf: &mut H,
        ilk: Ilk,
        code: u8,
        ile: Ile,
    ) -> Result<(), PageFault>
        requires live { IsTrue (H.seen shelf.old).live }
        requires takes { IsTrue ((H.seen shelf.old).takes self.old.rows.set 2) }
        requires opened { IsOpened self.old.rows (H.seen shelf.old) }
        ensures sets { OnOk result (PutsIn self.old.rows (list_row ilk code ile) (H.seen shelf.old) (H.seen shelf.new)) }
        ensures opened { StaysOpen self.old.rows self.new.rows (H.seen shelf.new) }
        ensures leaves { Grows self.old.rows (H.steady shelf.old shelf.new) (IsErrOf result PageFault.Failed) (H.seen shelf.old) (H.seen shelf.new) }
        ensures fails { IfErr result (PutFails self.old.rows (list_row ilk code ile) (H.seen shelf.old) (H.seen shelf.new)) }
    {
        self.rows.put(shelf, &list_key(ilk, code), &write_ile(ile))
    }

    /// Takes the entry under a segment's name and its type's code away, and says whether there was one.
    pub fn drop_entry<H: Shelf>(
        &mut self,
        shelf: &mut H,
        ilk: Ilk,
        code: u8,
    ) -> Result<bool, PageFault>
        requires live { IsTrue (H.seen shelf.old).live }
        requires opened { IsOpened self.old.rows (H.seen shelf.old) }
        ensures removed { IfOk result (Removes self.old.rows (H.seen shelf.old) (H.seen shelf.new) (list_key ilk code)) }
        ensures opened { StaysOpen self.old.rows self.new.rows (H.seen shelf.new) }
        ensures leaves { Writes self.old.rows (H.steady shelf.old shelf.new) (IsErrOf result PageFault.Failed) (H.seen shelf.old) (H.seen shelf.new) }
        ensures fails { OnErr result (SameShelf (H.seen shelf.old) (H.seen shelf.new)) × (IsErrOf result PageFault.NoRoom → ⊥) }
    {
        self.rows.remove(shelf, &list_key(ilk, code))
    }
}
