// Reading a page of a set.
ghost use Rattle.std.specs.Prelude.{◌≡◌, ◌+◌, ◌<◌, ◌≤◌, length, slice_get, IfSome, Some, OnOk, IsErrOf, IsTrue};
ghost use Rattle.hal_base.specs.ShelfCalls.{OnlyReads};
ghost use Rattle.keyed_sets.specs.Layout.{HasPlace};
ghost use Rattle.keyed_sets.specs.Calls.{IsOpened};
ghost use Rattle.keyed_sets.specs.Reading.{HasRead};

use crate::page::{count_in, has_place};
use crate::{KeyedSet, RowShape};
use hal_base::{BLOCK, PageFault, SetId, Shelf};

/// Reads a page of rows. One without place for its rows, which no page of a told set is, is `Memory`.
pub(crate) fn fetch_rows<H: Shelf>(
    shelf: &mut H,
    set: SetId,
    shape: RowShape,
    n: u16,
    page: &mut [u8; BLOCK],
) -> Result<(), PageFault>
    requires live { IsTrue (H.seen shelf.old).live }
    requires below { n < length ((H.seen shelf.old).places set) }
    ensures place { OnOk result (HasPlace shape page.new) }
    ensures page { OnOk result (IfSome ((H.seen shelf.old).pages set) (λ pages. slice_get pages n ≡ Some page.new)) }
    ensures room { IsErrOf result PageFault.NoRoom → ⊥ }
    ensures leaves { OnlyReads 1 (H.steady shelf.old shelf.new) (IsErrOf result PageFault.Failed) (H.seen shelf.old) (H.seen shelf.new) }
{
    shelf.fetch_page(set, n, page)?;
    if has_place(shape, page) {
        Ok(())
    } else {
        Err(PageFault::Memory)
    }
}

impl KeyedSet {
    /// Reads the page at a place in the order of first keys; it has a row.
    pub(crate) fn read_page<H: Shelf>(
        &self,
        shelf: &mut H,
        home: usize,
        page: &mut [u8; BLOCK],
    ) -> Result<(), PageFault>
        requires live { IsTrue (H.seen shelf.old).live }
        requires within { home < length self.now.index.firsts.items }
        requires opened { IsOpened self.now (H.seen shelf.old) }
        ensures read { OnOk result (HasRead self.now home page.new (H.seen shelf.old)) }
        ensures room { IsErrOf result PageFault.NoRoom → ⊥ }
        ensures leaves { OnlyReads 1 (H.steady shelf.old shelf.new) (IsErrOf result PageFault.Failed) (H.seen shelf.old) (H.seen shelf.new) }
    {
        fetch_rows(
            shelf,
            self.set,
            self.shape,
            self.index.firsts[home].page,
            page,
        )?;
        if count_in(page) == 0 {
            return Err(PageFault::Memory);
        }
        Ok(())
    }
}
