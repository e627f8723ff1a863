// Putting a row into a set.
ghost use Rattle.std.specs.Prelude.{◌≡◌, ◌↔◌, ◌+◌, ◌<◌, ◌≤◌, false, OnOk, OnErr, IfOk, IfErr, IfSome, IsErrOf, IsTrue};
ghost use Rattle.hal_base.specs.ShelfCalls.{SameShelf};
ghost use Rattle.keyed_sets.specs.Calls.{IsOpened, PutsIn, PutFails, Inserts, StaysOpen, Writes, Grows};
ghost use Rattle.keyed_sets.specs.Layout.{HasShape, count_of, end_of};
ghost use Rattle.keyed_sets.specs.Rule.{capacity, tables};
ghost use Rattle.keyed_sets.specs.Goes.{IsBegun, IsFull};
ghost use Rattle.keyed_sets.specs.Reading.{IsSought, home_page};

use crate::KeyedSet;
use crate::page::{count_in, has_room};
use crate::page_edits::{insert_row, set_row, split_rows};
use crate::seek::Spot;
use hal_base::{BLOCK, PageFault, Shelf};

/// A place behind all rows of its page, where no page comes behind that.
fn comes_last(home: usize, pages: usize, at: u16, count: u16) -> bool
    requires { home < pages }
    ensures { IsTrue result ↔ ((home + 1 ≡ pages) × (at ≡ count)) }
{
    home + 1 == pages && at == count
}

impl KeyedSet {
    /// Puts a row into the page where its key goes, which takes it.
    pub(crate) fn fit_row<H: Shelf>(
        &mut self,
        shelf: &mut H,
        spot: Spot,
        page: &mut [u8; BLOCK],
        key: &[u8],
        body: &[u8],
    ) -> Result<(), PageFault>
        requires live { IsTrue (H.seen shelf.old).live }
        requires opened { IsOpened self.old (H.seen shelf.old) }
        requires shaped { HasShape self.old.shape (key.now, body.now) }
        requires sought { IsSought self.old key.now spot page.old (H.seen shelf.old) }
        requires takes { spot.found ≡ false → end_of self.old.shape (count_of page.old + 1) ≤ 4096 }
        ensures puts { OnOk result (PutsIn self.old (key.now, body.now) (H.seen shelf.old) (H.seen shelf.new)) }
        ensures opened { StaysOpen self.old self.new (H.seen shelf.new) }
        ensures leaves { Writes self.old (H.steady shelf.old shelf.new) (IsErrOf result PageFault.Failed) (H.seen shelf.old) (H.seen shelf.new) }
        ensures unchanged { OnErr result (SameShelf (H.seen shelf.old) (H.seen shelf.new)) }
        ensures room { IsErrOf result PageFault.NoRoom → ⊥ }
        ensures fetches { (H.seen shelf.new).fetches ≡ (H.seen shelf.old).fetches }
    {
        set_row(self.shape, page, spot.at, spot.found, key, body);
        self.index
            .put_page(shelf, self.set, self.shape, spot.home, page)
    }

    /// Puts a row above all others, or the first of all, at the front of a page without rows.
    fn begin_page<H: Shelf>(
        &mut self,
        shelf: &mut H,
        key: &[u8],
        body: &[u8],
    ) -> Result<(), PageFault>
        requires live { IsTrue (H.seen shelf.old).live }
        requires takes { IsTrue ((H.seen shelf.old).takes self.old.set 2) }
        requires opened { IsOpened self.old (H.seen shelf.old) }
        requires shaped { HasShape self.old.shape (key.now, body.now) }
        requires begins { IfSome ((H.seen shelf.old).pages self.old.set) (λ pages. IsBegun (capacity self.old.shape) key.now (tables self.old.shape pages)) }
        ensures puts { OnOk result (PutsIn self.old (key.now, body.now) (H.seen shelf.old) (H.seen shelf.new)) }
        ensures opened { StaysOpen self.old self.new (H.seen shelf.new) }
        ensures leaves { Grows self.old (H.steady shelf.old shelf.new) (IsErrOf result PageFault.Failed) (H.seen shelf.old) (H.seen shelf.new) }
        ensures fails { IfErr result (PutFails self.old (key.now, body.now) (H.seen shelf.old) (H.seen shelf.new)) }
        ensures few { (H.seen shelf.new).fetches ≤ (H.seen shelf.old).fetches + 1 }
    {
        self.index.make_page(shelf, self.set)?;
        let mut page = [0; BLOCK];
        self.index
            .read_empty(shelf, self.set, self.shape, &mut page)?;
        insert_row(self.shape, &mut page, 0, key, body);
        self.index.add_page(shelf, self.set, self.shape, &page)
    }

    /// Splits a full page into itself and an empty page of the set or a new one, with a row more.
    fn split_page<H: Shelf>(
        &mut self,
        shelf: &mut H,
        spot: Spot,
        page: &mut [u8; BLOCK],
        key: &[u8],
        body: &[u8],
    ) -> Result<(), PageFault>
        requires live { IsTrue (H.seen shelf.old).live }
        requires takes { IsTrue ((H.seen shelf.old).takes self.old.set 2) }
        requires opened { IsOpened self.old (H.seen shelf.old) }
        requires shaped { HasShape self.old.shape (key.now, body.now) }
        requires sought { IsSought self.old key.now spot page.old (H.seen shelf.old) }
        requires no_room { end_of self.old.shape (count_of page.old + 1) ≤ 4096 → ⊥ }
        requires full { IfSome ((H.seen shelf.old).pages self.old.set) (λ pages. IsFull (capacity self.old.shape) key.now (tables self.old.shape pages) (home_page self.old spot)) }
        ensures puts { OnOk result (PutsIn self.old (key.now, body.now) (H.seen shelf.old) (H.seen shelf.new)) }
        ensures opened { StaysOpen self.old self.new (H.seen shelf.new) }
        ensures leaves { Grows self.old (H.steady shelf.old shelf.new) (IsErrOf result PageFault.Failed) (H.seen shelf.old) (H.seen shelf.new) }
        ensures fails { IfErr result (PutFails self.old (key.now, body.now) (H.seen shelf.old) (H.seen shelf.new)) }
        ensures few { (H.seen shelf.new).fetches ≤ (H.seen shelf.old).fetches + 1 }
    {
        self.index.make_page(shelf, self.set)?;
        let mut second = [0; BLOCK];
        self.index
            .read_empty(shelf, self.set, self.shape, &mut second)?;
        split_rows(self.shape, page, &mut second, spot.at, key, body);
        self.index
            .put_halves(shelf, self.set, self.shape, spot.home, page, &second)
    }

    /// Puts a row at its spot: into its page, at the front of one behind it, or into a half of it.
    fn put_at<H: Shelf>(
        &mut self,
        shelf: &mut H,
        spot: Spot,
        page: &mut [u8; BLOCK],
        key: &[u8],
        body: &[u8],
    ) -> Result<(), PageFault>
        requires live { IsTrue (H.seen shelf.old).live }
        requires takes { IsTrue ((H.seen shelf.old).takes self.old.set 2) }
        requires opened { IsOpened self.old (H.seen shelf.old) }
        requires shaped { HasShape self.old.shape (key.now, body.now) }
        requires sought { IsSought self.old key.now spot page.old (H.seen shelf.old) }
        ensures puts { OnOk result (PutsIn self.old (key.now, body.now) (H.seen shelf.old) (H.seen shelf.new)) }
        ensures opened { StaysOpen self.old self.new (H.seen shelf.new) }
        ensures leaves { Grows self.old (H.steady shelf.old shelf.new) (IsErrOf result PageFault.Failed) (H.seen shelf.old) (H.seen shelf.new) }
        ensures fails { IfErr result (PutFails self.old (key.now, body.now) (H.seen shelf.old) (H.seen shelf.new)) }
        ensures few { (H.seen shelf.new).fetches ≤ (H.seen shelf.old).fetches + 1 }
    {
        if spot.found || has_room(self.shape, page) {
            return self.fit_row(shelf, spot, page, key, body);
        }
        let pages = self.index.firsts.len();
        if comes_last(spot.home, pages, spot.at, count_in(page)) {
            return self.begin_page(shelf, key, body);
        }
        self.split_page(shelf, spot, page, key, body)
    }

    /// Puts a row of the set's lengths into its place, over the body of the row of its key if there is one. A full page
    /// splits in halves, unless the row comes behind all others: then it begins a page. An empty page of the set is taken
    /// before the set gets a new one. `NoRoom` where it needs a new one and no block is free. After another fault the set
    /// may have a page more, without rows, or of a page that was to be split only the lower half; the shelf is then to be
    /// forgotten.
    pub fn put<H: Shelf>(&mut self, shelf: &mut H, key: &[u8], body: &[u8]) -> Result<(), PageFault>
        requires live { IsTrue (H.seen shelf.old).live }
        requires takes { IsTrue ((H.seen shelf.old).takes self.old.set 2) }
        requires opened { IsOpened self.old (H.seen shelf.old) }
        requires shaped { HasShape self.old.shape (key.now, body.now) }
        ensures puts { OnOk result (PutsIn self.old (key.now, body.now) (H.seen shelf.old) (H.seen shelf.new)) }
        ensures opened { StaysOpen self.old self.new (H.seen shelf.new) }
        ensures leaves { Grows self.old (H.steady shelf.old shelf.new) (IsErrOf result PageFault.Failed) (H.seen shelf.old) (H.seen shelf.new) }
        ensures fails { IfErr result (PutFails self.old (key.now, body.now) (H.seen shelf.old) (H.seen shelf.new)) }
        ensures few { (H.seen shelf.new).fetches ≤ (H.seen shelf.old).fetches + 2 }
    {
        if !self.index.has_rows() {
            return self.begin_page(shelf, key, body);
        }
        let mut page = [0; BLOCK];
        let spot = self.seek(shelf, key, &mut page)?;
        self.put_at(shelf, spot, &mut page, key, body)
    }

    /// Puts a row in as `put` does, unless the set has a row of its key, and says whether it did.
    pub fn insert<H: Shelf>(
        &mut self,
        shelf: &mut H,
        key: &[u8],
        body: &[u8],
    ) -> Result<bool, PageFault>
        requires live { IsTrue (H.seen shelf.old).live }
        requires takes { IsTrue ((H.seen shelf.old).takes self.old.set 2) }
        requires opened { IsOpened self.old (H.seen shelf.old) }
        requires shaped { HasShape self.old.shape (key.now, body.now) }
        ensures inserted { IfOk result (Inserts self.old (key.now, body.now) (H.seen shelf.old) (H.seen shelf.new)) }
        ensures opened { StaysOpen self.old self.new (H.seen shelf.new) }
        ensures leaves { Grows self.old (H.steady shelf.old shelf.new) (IsErrOf result PageFault.Failed) (H.seen shelf.old) (H.seen shelf.new) }
        ensures fails { IfErr result (PutFails self.old (key.now, body.now) (H.seen shelf.old) (H.seen shelf.new)) }
        ensures few { (H.seen shelf.new).fetches ≤ (H.seen shelf.old).fetches + 2 }
    {
        if !self.index.has_rows() {
            self.begin_page(shelf, key, body)?;
            return Ok(true);
        }
        let mut page = [0; BLOCK];
        let spot = self.seek(shelf, key, &mut page)?;
        if spot.found {
            return Ok(false);
        }
        self.put_at(shelf, spot, &mut page, key, body)?;
        Ok(true)
    }
}
