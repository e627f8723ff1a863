// Taking in the pages of a set, in the order of their numbers. The last keys are kept until all are taken in: with
// the first keys they are the ranges that may not overlap.
ghost use Rattle.std.specs.Prelude.{◌≡◌, ◌+◌, ◌-◌, ◌<◌, ◌≤◌, ℕ, List, length, slice_get, ◌++◌, ◌∷◌, [], All, IfSome, IsSomeAnd, MatchResult, IfErr, OnOk, IsErrOf, IsTrue, true, false, Contains};
ghost use Rattle.keyed_sets.specs.Layout.{Row, rows_in, is_below};
ghost use Rattle.keyed_sets.specs.Map.{KeysRise};
ghost use Rattle.keyed_sets.specs.Rule.{IsRowPage, page_rows};
ghost use Rattle.keyed_sets.specs.Standing.{Apart, StartsWith};
ghost use Rattle.keyed_sets.specs.Taken.{TakesRange, CrossesRange, TakesRows, CrossesRows, FirstsWithin, EmptyWithin};

use crate::RowShape;
use crate::index::{First, starts_upto};
use crate::page::{count_in, is_below, key_at};
use hal_base::{BLOCK, Bytes, StoreFault};
use std::alloc::Global;

/// The pages that were taken in: those with rows in the order of their first keys, with their last keys beside
/// them, and the numbers of those without.
#[derive(Drop)]
pub(crate) struct Opening {
    pub(crate) firsts: Vec<First>,
    pub(crate) lasts: Vec<Bytes>,
    pub(crate) empty: Vec<u16>,
}

/// The page before this place, if there is one, ends below the key.
fn ends_below(lasts: &[Bytes], at: usize, key: &[u8]) -> bool
    ensures yes { result ≡ true → 0 < at → IfSome (slice_get lasts.now (at - 1)) (λ last. is_below last key.now ≡ true) }
    ensures crossed { result ≡ false → (0 < at) × IsSomeAnd (slice_get lasts.now (at - 1)) (λ last. is_below last key.now ≡ false) }
{
    if at == 0 {
        return true;
    }
    match lasts.get(at - 1) {
        Some(last) => is_below(last.as_slice(), key),
        None => true,
    }
}

/// The page at this place, if there is one, begins above the key.
fn begins_above(firsts: &[First], at: usize, key: &[u8]) -> bool
    ensures yes { result ≡ true → IfSome (slice_get firsts.now at) (λ first. is_below key.now first.key ≡ true) }
    ensures crossed { result ≡ false → IsSomeAnd (slice_get firsts.now at) (λ first. is_below key.now first.key ≡ false) }
{
    match firsts.get(at) {
        Some(first) => is_below(key, first.key.as_slice()),
        None => true,
    }
}

impl Opening {
    pub(crate) fn new(alloc: Global) -> Opening
        ensures firsts { result.firsts.items ≡ [] }
        ensures lasts { result.lasts.items ≡ [] }
        ensures empty { result.empty.items ≡ [] }
    {
        Opening {
            firsts: Vec::new(alloc),
            lasts: Vec::new(alloc),
            empty: Vec::new(alloc),
        }
    }

    /// Takes in a page whose rows begin and end with these keys.
    fn take_range(
        &mut self,
        alloc: Global,
        n: u16,
        first: &[u8],
        last: &[u8],
    ) -> Result<(), StoreFault>
        ensures taken { OnOk result (TakesRange n first.now last.now self.old self.new) }
        ensures overlap { (page offset : ℕ) → result ≡ Err (StoreFault.BadTile page offset) → (page ≡ n) × (offset ≡ 16) × CrossesRange n first.now last.now self.old }
        ensures within { OnOk result (FirstsWithin n self.old self.new) }
        ensures empty { self.new.empty.items ≡ self.old.empty.items }
        ensures failed { IsErrOf result StoreFault.Failed → ⊥ }
    {
        let at = starts_upto(&self.firsts, first);
        if !ends_below(&self.lasts, at, first) || !begins_above(&self.firsts, at, last) {
            return Err(StoreFault::BadTile {
                page: n,
                offset: 16,
            });
        }
        let key = Bytes::from_slice(alloc, first)?;
        let end = Bytes::from_slice(alloc, last)?;
        if self.firsts.insert(at, First { key, page: n }).is_err() {
            return Err(StoreFault::Memory);
        }
        if at > self.lasts.len() || self.lasts.insert(at, end).is_err() {
            return Err(StoreFault::Memory);
        }
        Ok(())
    }

    /// Takes in the rows of the page of the next number. Where their range crosses that of a page before it, the
    /// page breaks the rule.
    pub(crate) fn take_rows(
        &mut self,
        alloc: Global,
        shape: RowShape,
        n: u16,
        page: &[u8; BLOCK],
    ) -> Result<(), StoreFault>
        requires { IsRowPage shape page.now }
        ensures taken { OnOk result (TakesRows n (rows_in shape page.now) self.old self.new) }
        ensures overlap { (bad offset : ℕ) → result ≡ Err (StoreFault.BadTile bad offset) → (bad ≡ n) × (offset ≡ 16) × CrossesRows n (rows_in shape page.now) self.old }
        ensures within { OnOk result (FirstsWithin n self.old self.new) }
        ensures empty_within { OnOk result (EmptyWithin n self.old self.new) }
        ensures failed { IsErrOf result StoreFault.Failed → ⊥ }
    {
        let count = count_in(page);
        if count == 0 {
            if self.empty.push(n).is_err() {
                return Err(StoreFault::Memory);
            }
            return Ok(());
        }
        let first = key_at(shape, page, 0);
        let last = key_at(shape, page, count - 1);
        self.take_range(alloc, n, first, last)
    }
}
