// Where pages stand: a table of the pages in the order of their data sets, and the look-ups in it.
ghost use Rattle.std.specs.Prelude.{◌≡◌, ◌+◌, ◌*◌, ◌^◌, ◌<◌, ◌≤◌, length, All, Some, slice_get};
ghost use Rattle.std.specs.List.Sorted.{IsNonDecreasingBy, IsPartitionPoint};
ghost use Rattle.volume_image.specs.Pages.{same_set};
ghost use Rattle.data_set_pairs.specs.Table.{set_rank, pages_of, places_of, RunFromZero, HasPlace};

use hal_base::SetId;

/// A page of a data set, and the number of the block that it stands in.
#[derive(Clone, Copy, Debug, PartialEq, Eq)]
pub struct PagePlace {
    pub set: SetId,
    pub page: u16,
    pub block: u32,
}

pub(crate) fn is_same_set(a: SetId, b: SetId) -> bool
    ensures { result ≡ same_set a b }
{
    a.part == b.part && a.number == b.number && a.letter == b.letter
}

/// The order in which data sets stand in a table.
pub(crate) fn set_rank(set: SetId) -> u64
    ensures rank { result ≡ set_rank set }
    ensures small { result < 2 ^ 40 }
{
    (u64::from(set.part) * 65536 + u64::from(set.number)) * 256 + u64::from(set.letter)
}

/// The place behind the last page of a data set, or where its first would stand.
pub(crate) fn end_of(pages: &[PagePlace], set: SetId) -> usize
    requires { IsNonDecreasingBy (λ p. set_rank p.set) pages.now }
    ensures within { result ≤ length pages.now }
    ensures parts { IsPartitionPoint (λ p. set_rank p.set ≤ set_rank set) (λ p. set_rank set < set_rank p.set) pages.now result }
{
    let rank = set_rank(set);
    pages.partition_point(|p| set_rank(p.set) <= rank)
}

/// How many pages a data set has, where no later data set stands among these pages.
pub(crate) fn count_before(pages: &[PagePlace], set: SetId) -> u32
    requires order { IsNonDecreasingBy (λ p. set_rank p.set) pages.now }
    requires run { RunFromZero pages.now }
    requires small { All (λ p. HasPlace p.set) pages.now }
    requires last { All (λ p. set_rank p.set ≤ set_rank set) pages.now }
    ensures { result ≡ length (pages_of set pages.now) }
{
    let Some(last) = pages.last() else {
        return 0;
    };
    if is_same_set(last.set, set) {
        u32::from(last.page) + 1
    } else {
        0
    }
}

/// How many pages a data set has.
pub(crate) fn count_of(pages: &[PagePlace], set: SetId) -> u32
    requires order { IsNonDecreasingBy (λ p. set_rank p.set) pages.now }
    requires run { RunFromZero pages.now }
    requires small { All (λ p. HasPlace p.set) pages.now }
    ensures { result ≡ length (pages_of set pages.now) }
{
    count_before(&pages[..end_of(pages, set)], set)
}

/// The block of a page of a data set.
pub(crate) fn block_at(pages: &[PagePlace], set: SetId, n: u16) -> u32
    requires order { IsNonDecreasingBy (λ p. set_rank p.set) pages.now }
    requires run { RunFromZero pages.now }
    requires small { All (λ p. HasPlace p.set) pages.now }
    requires below { n < length (places_of set pages.now) }
    ensures { slice_get (places_of set pages.now) n ≡ Some result }
{
    let page = usize::from(n);
    let end = end_of(pages, set);
    let count = count_before(&pages[..end], set) as usize;
    pages[end - count + page].block
}

/// The block of a page of a data set, where there is this page.
pub(crate) fn find_page(pages: &[PagePlace], set: SetId, n: u16) -> Option<u32>
    requires order { IsNonDecreasingBy (λ p. set_rank p.set) pages.now }
    requires run { RunFromZero pages.now }
    requires small { All (λ p. HasPlace p.set) pages.now }
    ensures { result ≡ slice_get (places_of set pages.now) n }
{
    if u32::from(n) < count_of(pages, set) {
        Some(block_at(pages, set, n))
    } else {
        None
    }
}
