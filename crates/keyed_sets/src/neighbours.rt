// The rows next to a key.
ghost use Rattle.std.specs.Prelude.{◌≡◌, ◌+◌, ◌-◌, ◌<◌, ◌≤◌, length, slice_get, true, false, IfOk, IfSome, OnOk, IsErrOf, IsTrue, Some, List, ℕ, Option};
ghost use Rattle.std.specs.List.{AllWithin};
ghost use Rattle.std.specs.Option.{option_map};
ghost use Rattle.hal_base.specs.ShelfCalls.{OnlyReads};
ghost use Rattle.keyed_sets.specs.Layout.{Row, HasShape, HasPlace, rows_in, count_of, is_below};
ghost use Rattle.keyed_sets.specs.Map.{next_after, last_below};
ghost use Rattle.keyed_sets.specs.Calls.{IsOpened, Gives};
ghost use Rattle.keyed_sets.specs.Rule.{Rise};
ghost use Rattle.keyed_sets.specs.Reading.{GivesFirst, GivesAbove, GivesBelow};

use crate::index::{starts_below, starts_upto};
use crate::page::{body_at, count_in, key_at, place_in};
use crate::seek::holds_key;
use crate::{KeyedSet, RowShape};
use hal_base::{BLOCK, Bytes, Memory, PageFault, Shelf};
use std::alloc::Global;

/// The row at a place of a page.
fn row_at(
    alloc: Global,
    shape: RowShape,
    page: &[u8; BLOCK],
    at: u16,
) -> Result<(Bytes, Bytes), Memory>
    requires place { HasPlace shape page.now }
    requires within { at < count_of page.now }
    ensures row { IfOk result (λ row. slice_get (rows_in shape page.now) at ≡ Some row) }
    ensures shaped { IfOk result (HasShape shape) }
{
    let key = Bytes::from_slice(alloc, key_at(shape, page, at))?;
    let body = Bytes::from_slice(alloc, body_at(shape, page, at))?;
    Ok((key, body))
}

/// How many rows at the front of a page aren't above this key.
fn place_past(shape: RowShape, page: &[u8; BLOCK], key: &[u8]) -> u16
    requires { HasPlace shape page.now }
    ensures within { result ≤ count_of page.now }
    ensures upto { Rise (rows_in shape page.now) → AllWithin (λ row. is_below key.now row.0 ≡ false) (rows_in shape page.now) 0 result }
    ensures above { Rise (rows_in shape page.now) → AllWithin (λ row. is_below key.now row.0 ≡ true) (rows_in shape page.now) result (count_of page.now) }
{
    let at = place_in(shape, page, key);
    if holds_key(shape, page, at, key) {
        at + 1
    } else {
        at
    }
}

impl KeyedSet {
    /// The first row of the page at a place in the order of first keys, if there is one.
    fn first_from<H: Shelf>(
        &self,
        shelf: &mut H,
        home: usize,
    ) -> Result<Option<(Bytes, Bytes)>, PageFault>
        requires live { IsTrue (H.seen shelf.old).live }
        requires opened { IsOpened self.now (H.seen shelf.old) }
        ensures row { IfOk result (GivesFirst self.now home (H.seen shelf.old)) }
        ensures room { IsErrOf result PageFault.NoRoom → ⊥ }
        ensures leaves { OnlyReads 1 (H.steady shelf.old shelf.new) (IsErrOf result PageFault.Failed) (H.seen shelf.old) (H.seen shelf.new) }
    {
        if home >= self.index.firsts.len() {
            return Ok(None);
        }
        let mut page = [0; BLOCK];
        self.read_page(shelf, home, &mut page)?;
        let row = row_at(*self.index.firsts.allocator(), self.shape, &page, 0)?;
        Ok(Some(row))
    }

    /// The first row above a key in the page at a place in the order of first keys.
    fn above_in<H: Shelf>(
        &self,
        shelf: &mut H,
        home: usize,
        key: &[u8],
    ) -> Result<Option<(Bytes, Bytes)>, PageFault>
        requires live { IsTrue (H.seen shelf.old).live }
        requires within { home < length self.now.index.firsts.items }
        requires opened { IsOpened self.now (H.seen shelf.old) }
        ensures row { IfOk result (GivesAbove self.now home key.now (H.seen shelf.old)) }
        ensures room { IsErrOf result PageFault.NoRoom → ⊥ }
        ensures leaves { OnlyReads 1 (H.steady shelf.old shelf.new) (IsErrOf result PageFault.Failed) (H.seen shelf.old) (H.seen shelf.new) }
    {
        let mut page = [0; BLOCK];
        self.read_page(shelf, home, &mut page)?;
        let past = place_past(self.shape, &page, key);
        if past == count_in(&page) {
            return Ok(None);
        }
        let row = row_at(*self.index.firsts.allocator(), self.shape, &page, past)?;
        Ok(Some(row))
    }

    /// The first row whose key is above this one.
    fn first_above<H: Shelf>(
        &self,
        shelf: &mut H,
        key: &[u8],
    ) -> Result<Option<(Bytes, Bytes)>, PageFault>
        requires live { IsTrue (H.seen shelf.old).live }
        requires opened { IsOpened self.now (H.seen shelf.old) }
        ensures row { IfOk result (Gives self.now (H.seen shelf.old) (next_after (Some key.now))) }
        ensures room { IsErrOf result PageFault.NoRoom → ⊥ }
        ensures leaves { OnlyReads 2 (H.steady shelf.old shelf.new) (IsErrOf result PageFault.Failed) (H.seen shelf.old) (H.seen shelf.new) }
    {
        let at = starts_upto(&self.index.firsts, key);
        if at == 0 {
            return self.first_from(shelf, 0);
        }
        match self.above_in(shelf, at - 1, key)? {
            Some(row) => Ok(Some(row)),
            None => self.first_from(shelf, at),
        }
    }

    /// The last row below a key, in the page at a place whose first key is below it.
    fn below_in<H: Shelf>(
        &self,
        shelf: &mut H,
        home: usize,
        key: &[u8],
    ) -> Result<(Bytes, Bytes), PageFault>
        requires live { IsTrue (H.seen shelf.old).live }
        requires within { home < length self.now.index.firsts.items }
        requires opened { IsOpened self.now (H.seen shelf.old) }
        ensures row { IfOk result (GivesBelow self.now home key.now (H.seen shelf.old)) }
        ensures room { IsErrOf result PageFault.NoRoom → ⊥ }
        ensures leaves { OnlyReads 1 (H.steady shelf.old shelf.new) (IsErrOf result PageFault.Failed) (H.seen shelf.old) (H.seen shelf.new) }
    {
        let mut page = [0; BLOCK];
        self.read_page(shelf, home, &mut page)?;
        let place = place_in(self.shape, &page, key);
        if place == 0 {
            return Err(PageFault::Memory);
        }
        let row = row_at(*self.index.firsts.allocator(), self.shape, &page, place - 1)?;
        Ok(row)
    }

    /// The first row whose key is above this one; the first of all, where no key is given.
    pub fn next_after<H: Shelf>(
        &mut self,
        shelf: &mut H,
        key: Option<&[u8]>,
    ) -> Result<Option<(Bytes, Bytes)>, PageFault>
        requires live { IsTrue (H.seen shelf.old).live }
        requires opened { IsOpened self.old (H.seen shelf.old) }
        ensures row { IfOk result (Gives self.old (H.seen shelf.old) (next_after (option_map (λ key. key.now) key.entry))) }
        ensures kept { (self.new ≡ self.old) × IsOpened self.new (H.seen shelf.new) }
        ensures leaves { OnlyReads 2 (H.steady shelf.old shelf.new) (IsErrOf result PageFault.Failed) (H.seen shelf.old) (H.seen shelf.new) }
        ensures room { IsErrOf result PageFault.NoRoom → ⊥ }
    {
        match key {
            Some(key) => self.first_above(shelf, key),
            None => self.first_from(shelf, 0),
        }
    }

    /// The last row whose key is below this one.
    pub fn before<H: Shelf>(
        &mut self,
        shelf: &mut H,
        key: &[u8],
    ) -> Result<Option<(Bytes, Bytes)>, PageFault>
        requires live { IsTrue (H.seen shelf.old).live }
        requires opened { IsOpened self.old (H.seen shelf.old) }
        ensures row { IfOk result (Gives self.old (H.seen shelf.old) (last_below key.now)) }
        ensures kept { (self.new ≡ self.old) × IsOpened self.new (H.seen shelf.new) }
        ensures leaves { OnlyReads 1 (H.steady shelf.old shelf.new) (IsErrOf result PageFault.Failed) (H.seen shelf.old) (H.seen shelf.new) }
        ensures room { IsErrOf result PageFault.NoRoom → ⊥ }
    {
        let at = starts_below(&self.index.firsts, key);
        if at == 0 {
            return Ok(None);
        }
        let row = self.below_in(shelf, at - 1, key)?;
        Ok(Some(row))
    }
}
