// The second page of a put: an empty page of the set, or a new one.
ghost use Rattle.std.specs.Prelude.{◌≡◌, ◌+◌, ◌<◌, ◌≤◌, [], length, slice_get, OnOk, OnErr, IfSome, IsErrOf, IsTrue, Some};
ghost use Rattle.hal_base.specs.ShelfCalls.{Keeps, OnlyReads, SameShelf};
ghost use Rattle.keyed_sets.specs.Layout.{HasPlace, count_of};
ghost use Rattle.keyed_sets.specs.Writing.{number_at, MakesPage};

use crate::RowShape;
use crate::fetch::fetch_rows;
use crate::index::Index;
use crate::page::count_in;
use crate::write::{insert_number, make_slot};
use hal_base::{BLOCK, PageFault, SetId, Shelf};

impl Index {
    /// Adds a page to the set, unless one is empty.
    pub(crate) fn make_page<H: Shelf>(&mut self, shelf: &mut H, set: SetId) -> Result<(), PageFault>
        requires live { IsTrue (H.seen shelf.old).live }
        requires takes { IsTrue ((H.seen shelf.old).takes set 2) }
        ensures made { OnOk result (MakesPage set self.old self.new (H.seen shelf.old) (H.seen shelf.new)) }
        ensures firsts { self.new.firsts.items ≡ self.old.firsts.items }
        ensures unchanged { OnErr result ((self.new.empty.items ≡ self.old.empty.items) × SameShelf (H.seen shelf.old) (H.seen shelf.new)) }
        ensures room { IsErrOf result PageFault.NoRoom → ((H.seen shelf.old).free ≡ []) × (self.old.empty.items ≡ []) }
        ensures keeps { Keeps (H.steady shelf.old shelf.new) (IsErrOf result PageFault.Failed) (H.seen shelf.old) (H.seen shelf.new) }
        ensures fetches { (H.seen shelf.new).fetches ≡ (H.seen shelf.old).fetches }
    {
        if !self.empty.is_empty() {
            return Ok(());
        }
        make_slot(&mut self.empty)?;
        let n = shelf.grow(set, 2)?;
        insert_number(&mut self.empty, n);
        Ok(())
    }

    /// Reads the first of the empty pages.
    pub(crate) fn read_empty<H: Shelf>(
        &self,
        shelf: &mut H,
        set: SetId,
        shape: RowShape,
        page: &mut [u8; BLOCK],
    ) -> Result<(), PageFault>
        requires live { IsTrue (H.seen shelf.old).live }
        requires some { 0 < length self.now.empty.items }
        requires below { number_at self.now.empty.items < length ((H.seen shelf.old).places set) }
        ensures none { OnOk result (count_of page.new ≡ 0) }
        ensures page { OnOk result (IfSome ((H.seen shelf.old).pages set) (λ pages. slice_get pages (number_at self.now.empty.items) ≡ Some page.new)) }
        ensures room { IsErrOf result PageFault.NoRoom → ⊥ }
        ensures leaves { OnlyReads 1 (H.steady shelf.old shelf.new) (IsErrOf result PageFault.Failed) (H.seen shelf.old) (H.seen shelf.new) }
    {
        fetch_rows(shelf, set, shape, self.empty[0], page)?;
        if count_in(page) > 0 {
            return Err(PageFault::Memory);
        }
        Ok(())
    }
}
