// Opening a set: each page is read and taken in.
ghost use Rattle.std.specs.Prelude.{◌≡◌, ◌+◌, ◌<◌, ◌≤◌, ℕ, length, take, IfOk, IfSome, OnOk, IsErrOf, IsTrue};
ghost use Rattle.hal_base.specs.ShelfCalls.{OnlyReads};
ghost use Rattle.keyed_sets.specs.Rule.{Breaks};
ghost use Rattle.keyed_sets.specs.Calls.{IsOpened};
ghost use Rattle.keyed_sets.specs.Taken.{TakesPage, BreaksPage, FirstsWithin, EmptyWithin};

use crate::check::page_break;
use crate::index::Index;
use crate::opening::Opening;
use crate::{KeyedSet, RowShape};
use hal_base::{BLOCK, SetId, Shelf, StoreFault};
use std::alloc::Global;

impl Opening {
    /// Reads the page of the next number and takes in its rows.
    fn take_page<H: Shelf>(
        &mut self,
        alloc: Global,
        shelf: &mut H,
        set: SetId,
        shape: RowShape,
        n: u16,
    ) -> Result<(), StoreFault>
        requires live { IsTrue (H.seen shelf.old).live }
        requires below { n < length ((H.seen shelf.old).places set) }
        requires some { 0 < shape.key }
        ensures taken { OnOk result (IfSome ((H.seen shelf.old).pages set) (TakesPage shape n self.old self.new)) }
        ensures broken { (page offset : ℕ) → result ≡ Err (StoreFault.BadTile page offset) → IfSome ((H.seen shelf.old).pages set) (BreaksPage shape n self.old page offset) }
        ensures within { OnOk result (FirstsWithin n self.old self.new) }
        ensures empty_within { OnOk result (EmptyWithin n self.old self.new) }
        ensures leaves { OnlyReads 1 (H.steady shelf.old shelf.new) (IsErrOf result StoreFault.Failed) (H.seen shelf.old) (H.seen shelf.new) }
    {
        let mut page = [0; BLOCK];
        shelf.fetch_page(set, n, &mut page)?;
        if let Some(offset) = page_break(shape, &page) {
            return Err(StoreFault::BadTile { page: n, offset });
        }
        self.take_rows(alloc, shape, n, &page)
    }
}

impl KeyedSet {
    /// Opens the set of rows of these lengths, `key` and `body` bytes. It reads all pages. `BadTile` names the first
    /// page that isn't one of such rows, or whose keys cross those of a page before it; and in it the first row that
    /// has place and isn't above the one before it, or 16 where there is none or the page's kind isn't 2.
    pub fn open<H: Shelf>(
        alloc: Global,
        shelf: &mut H,
        set: SetId,
        key: u16,
        body: u16,
    ) -> Result<KeyedSet, StoreFault>
        requires live { IsTrue (H.seen shelf.old).live }
        requires some { 0 < key }
        requires short { key + body ≤ 2040 }
        ensures set { IfOk result (λ opened. (opened.set ≡ set) × (opened.shape ≡ record { key = key; body = body })) }
        ensures opened { IfOk result (λ opened. IsOpened opened (H.seen shelf.new)) }
        ensures broken { (page offset : ℕ) → result ≡ Err (StoreFault.BadTile page offset) → IfSome ((H.seen shelf.old).pages set) (Breaks key body page offset) }
        ensures leaves { OnlyReads (length ((H.seen shelf.old).places set)) (H.steady shelf.old shelf.new) (IsErrOf result StoreFault.Failed) (H.seen shelf.old) (H.seen shelf.new) }
    {
        let shape = RowShape { key, body };
        let mut opening = Opening::new(alloc);
        for n in 0..shelf.pages(set) {
            opening.take_page(alloc, shelf, set, shape, n as u16)?;
        }
        let Opening {
            firsts,
            lasts: _,
            empty,
        } = opening;
        Ok(KeyedSet {
            set,
            shape,
            index: Index { firsts, empty },
        })
    }
}
