// What a set keeps in memory of its pages: the first key of each page that has rows, in the order of these keys, and the
// numbers of the pages that have none, rising.
ghost use Rattle.std.specs.Prelude.{◌≡◌, ◌≤◌, ◌<◌, List, length, slice_get, true, false, Some, []};
ghost use Rattle.std.specs.List.{AllWithin};
ghost use Rattle.keyed_sets.specs.declared.index.First.{First};
ghost use Rattle.keyed_sets.specs.Layout.{Row, is_below};
ghost use Rattle.keyed_sets.specs.Map.{KeysRise};
ghost use Rattle.keyed_sets.specs.Goes.{GoesTo};
ghost use Rattle.keyed_sets.specs.Standing.{IsIndex};
ghost use Rattle.keyed_sets.specs.Taken.{AreApart};

use crate::page::is_below;
use hal_base::Bytes;

/// The first key of a page that has rows, and the page's number in its set.
#[derive(Debug, Drop)]
pub(crate) struct First {
    pub(crate) key: Bytes,
    pub(crate) page: u16,
}

#[derive(Debug, Drop)]
pub(crate) struct Index {
    pub(crate) firsts: Vec<First>,
    pub(crate) empty: Vec<u16>,
}

impl Index {
    /// A page has rows.
    pub(crate) fn has_rows(&self) -> bool
        ensures some { result ≡ true → 0 < length self.now.firsts.items }
        ensures none { result ≡ false → self.now.firsts.items ≡ [] }
    {
        !self.firsts.is_empty()
    }
}

/// How many of the pages that rise begin at this key or below it.
pub(crate) fn starts_upto(firsts: &[First], key: &[u8]) -> usize
    ensures within { result ≤ length firsts.now }
    ensures upto { KeysRise (λ first. first.key) firsts.now → AllWithin (λ first. is_below key.now first.key ≡ false) firsts.now 0 result }
    ensures above { KeysRise (λ first. first.key) firsts.now → AllWithin (λ first. is_below key.now first.key ≡ true) firsts.now result (length firsts.now) }
{
    firsts.partition_point(|first| !is_below(key, first.key.as_slice()))
}

/// How many of the pages that rise begin below this key.
pub(crate) fn starts_below(firsts: &[First], key: &[u8]) -> usize
    ensures within { result ≤ length firsts.now }
    ensures below { KeysRise (λ first. first.key) firsts.now → AllWithin (λ first. is_below first.key key.now ≡ true) firsts.now 0 result }
    ensures from { KeysRise (λ first. first.key) firsts.now → AllWithin (λ first. is_below first.key key.now ≡ false) firsts.now result (length firsts.now) }
{
    firsts.partition_point(|first| is_below(first.key.as_slice(), key))
}

/// The place of the page where a key goes: the last of those that don't begin above it, or the first.
pub(crate) fn home_of(firsts: &[First], key: &[u8]) -> usize
    requires { 0 < length firsts.now }
    ensures within { result < length firsts.now }
    ensures goes { (table : List (List Row)) (p : First) → AreApart table → IsIndex table firsts.now → slice_get firsts.now result ≡ Some p → GoesTo key.now table firsts.now result p }
{
    starts_upto(firsts, key).saturating_sub(1)
}
