// Putting changed pages back, and what the index keeps of them.
ghost use Rattle.std.specs.Prelude.{◌≡◌, ◌<◌, ◌≤◌, ◌+◌, length, slice_get, OnOk, OnErr, IfOk, IfSome, IsErrOf, IsTrue, MatchResult, insert, vec_len};
ghost use Rattle.std.specs.Vec.{vec_capacity};
ghost use Rattle.hal_base.specs.ShelfCalls.{OnlyChanges, SameShelf};
ghost use Rattle.hal_base.specs.Pages.{SameHead};
ghost use Rattle.keyed_sets.specs.declared.index.First.{First};
ghost use Rattle.keyed_sets.specs.Layout.{HasPlace, rows_in, count_of};
ghost use Rattle.keyed_sets.specs.Standing.{StartsWith, with_number};
ghost use Rattle.keyed_sets.specs.Writing.{first_at, number_at, WritesPage, AddsPage, AreHalves, CanHalve, WritesHalves, LeavesHalf};

use crate::RowShape;
use crate::index::{First, Index};
use crate::page::{count_in, key_at};
use hal_base::{BLOCK, Bytes, Memory, PageFault, SetId, Shelf};
use std::alloc::Global;

/// Where a number has its place among others that rise.
fn number_place(numbers: &[u16], n: u16) -> usize
    ensures within { result ≤ length numbers.now }
    ensures place { insert numbers.now result n ≡ with_number n numbers.now }
{
    for (at, number) in numbers.iter().enumerate() {
        if *number >= n {
            return at;
        }
    }
    numbers.len()
}

/// Makes room for one item more.
pub(crate) fn make_slot<T: Drop>(items: &mut Vec<T>) -> Result<(), Memory>
    ensures items { items.new.items ≡ items.old.items }
    ensures room { OnOk result (vec_len items.new < vec_capacity items.new) }
{
    items.reserve(1)?;
    Ok(())
}

/// Puts a number, for which there is room, in its place.
pub(crate) fn insert_number(numbers: &mut Vec<u16>, n: u16)
    requires { vec_len numbers.old < vec_capacity numbers.old }
    ensures { numbers.new.items ≡ with_number n numbers.old.items }
{
    let place = number_place(numbers, n);
    let _ = numbers.insert(place, n);
}

/// What the index keeps of a page that has rows.
fn first_of(alloc: Global, shape: RowShape, n: u16, page: &[u8; BLOCK]) -> Result<First, Memory>
    requires place { HasPlace shape page.now }
    requires some { 0 < count_of page.now }
    ensures starts { IfOk result (λ first. StartsWith first.key (rows_in shape page.now)) }
    ensures page { IfOk result (λ first. first.page ≡ n) }
{
    let key = Bytes::from_slice(alloc, key_at(shape, page, 0))?;
    Ok(First { key, page: n })
}

impl Index {
    /// Puts a page back that has other rows now. One that has none any more stays a page of the set, for a later row.
    pub(crate) fn put_page<H: Shelf>(
        &mut self,
        shelf: &mut H,
        set: SetId,
        shape: RowShape,
        home: usize,
        page: &[u8; BLOCK],
    ) -> Result<(), PageFault>
        requires live { IsTrue (H.seen shelf.old).live }
        requires within { home < length self.old.firsts.items }
        requires below { (first_at home self.old.firsts.items).page < length ((H.seen shelf.old).places set) }
        requires head { IfSome ((H.seen shelf.old).pages set) (λ pages. IfSome (slice_get pages (first_at home self.old.firsts.items).page) (λ old. SameHead old page.now)) }
        requires place { HasPlace shape page.now }
        ensures written { OnOk result (WritesPage set shape self.old self.new home page.now (H.seen shelf.old) (H.seen shelf.new)) }
        ensures unchanged { OnErr result ((self.new.firsts.items ≡ self.old.firsts.items) × (self.new.empty.items ≡ self.old.empty.items) × SameShelf (H.seen shelf.old) (H.seen shelf.new)) }
        ensures room { IsErrOf result PageFault.NoRoom → ⊥ }
        ensures leaves { OnlyChanges set (H.steady shelf.old shelf.new) (IsErrOf result PageFault.Failed) (H.seen shelf.old) (H.seen shelf.new) }
        ensures fetches { (H.seen shelf.new).fetches ≡ (H.seen shelf.old).fetches }
    {
        let n = self.firsts[home].page;
        if count_in(page) == 0 {
            make_slot(&mut self.empty)?;
            shelf.stage_page(set, n, page)?;
            insert_number(&mut self.empty, n);
            let _ = self.firsts.remove(home);
            return Ok(());
        }
        let first = first_of(*self.firsts.allocator(), shape, n, page)?;
        shelf.stage_page(set, n, page)?;
        self.firsts[home] = first;
        Ok(())
    }

    /// Puts the first of the empty pages back with rows that come behind all others.
    pub(crate) fn add_page<H: Shelf>(
        &mut self,
        shelf: &mut H,
        set: SetId,
        shape: RowShape,
        page: &[u8; BLOCK],
    ) -> Result<(), PageFault>
        requires live { IsTrue (H.seen shelf.old).live }
        requires empty { 0 < length self.old.empty.items }
        requires below { number_at self.old.empty.items < length ((H.seen shelf.old).places set) }
        requires head { IfSome ((H.seen shelf.old).pages set) (λ pages. IfSome (slice_get pages (number_at self.old.empty.items)) (λ old. SameHead old page.now)) }
        requires place { HasPlace shape page.now }
        requires some { 0 < count_of page.now }
        ensures added { OnOk result (AddsPage set shape self.old self.new page.now (H.seen shelf.old) (H.seen shelf.new)) }
        ensures unchanged { OnErr result ((self.new.firsts.items ≡ self.old.firsts.items) × (self.new.empty.items ≡ self.old.empty.items) × SameShelf (H.seen shelf.old) (H.seen shelf.new)) }
        ensures room { IsErrOf result PageFault.NoRoom → ⊥ }
        ensures leaves { OnlyChanges set (H.steady shelf.old shelf.new) (IsErrOf result PageFault.Failed) (H.seen shelf.old) (H.seen shelf.new) }
        ensures fetches { (H.seen shelf.new).fetches ≡ (H.seen shelf.old).fetches }
    {
        let n = self.empty[0];
        let first = first_of(*self.firsts.allocator(), shape, n, page)?;
        make_slot(&mut self.firsts)?;
        shelf.stage_page(set, n, page)?;
        let _ = self.firsts.push(first);
        let _ = self.empty.remove(0);
        Ok(())
    }

    /// What the index will keep of a page that splits, and of the first of the empty pages, with room for it.
    fn make_halves(
        &mut self,
        shape: RowShape,
        home: usize,
        page: &[u8; BLOCK],
        second: &[u8; BLOCK],
    ) -> Result<(First, First), Memory>
        requires within { home < length self.old.firsts.items }
        requires empty { 0 < length self.old.empty.items }
        requires place { HasPlace shape page.now × (0 < count_of page.now) }
        requires second_place { HasPlace shape second.now × (0 < count_of second.now) }
        ensures same { (self.new.firsts.items ≡ self.old.firsts.items) × (self.new.empty.items ≡ self.old.empty.items) }
        ensures room { OnOk result (vec_len self.new.firsts < vec_capacity self.new.firsts) }
        ensures halves { IfOk result (λ halves. AreHalves shape self.old home page.now second.now halves.0 halves.1) }
    {
        let alloc = *self.firsts.allocator();
        let low = first_of(alloc, shape, self.firsts[home].page, page)?;
        let high = first_of(alloc, shape, self.empty[0], second)?;
        make_slot(&mut self.firsts)?;
        Ok((low, high))
    }

    /// Puts a page back with the lower of its rows, and the first of the empty pages with the upper ones. Where only
    /// the first was put back, the upper ones stand nowhere.
    pub(crate) fn put_halves<H: Shelf>(
        &mut self,
        shelf: &mut H,
        set: SetId,
        shape: RowShape,
        home: usize,
        page: &[u8; BLOCK],
        second: &[u8; BLOCK],
    ) -> Result<(), PageFault>
        requires live { IsTrue (H.seen shelf.old).live }
        requires halves { CanHalve set shape self.old home page.now second.now (H.seen shelf.old) }
        ensures written { OnOk result (WritesHalves set shape self.old self.new home page.now second.now (H.seen shelf.old) (H.seen shelf.new)) }
        ensures left { OnErr result (LeavesHalf set shape self.old self.new home page.now (H.seen shelf.old) (H.seen shelf.new)) }
        ensures room { IsErrOf result PageFault.NoRoom → ⊥ }
        ensures leaves { OnlyChanges set (H.steady shelf.old shelf.new) (IsErrOf result PageFault.Failed) (H.seen shelf.old) (H.seen shelf.new) }
        ensures fetches { (H.seen shelf.new).fetches ≡ (H.seen shelf.old).fetches }
    {
        let (low, high) = self.make_halves(shape, home, page, second)?;
        shelf.stage_page(set, low.page, page)?;
        if let Err(fault) = shelf.stage_page(set, high.page, second) {
            self.firsts[home] = low;
            return Err(PageFault::from(fault));
        }
        let _ = self.firsts.insert(home + 1, high);
        self.firsts[home] = low;
        let _ = self.empty.remove(0);
        Ok(())
    }
}
