// The order of a table's pages, and whether the pages of each data set are numbered from 0 on.
ghost use Rattle.std.specs.Prelude.{◌≡◌, ◌*◌, ◌+◌, ◌^◌, ◌<◌, length, All, IsTrue, ◌↔◌};
ghost use Rattle.std.specs.List.Sorted.{IsPermutation, IsNonDecreasingBy};
ghost use Rattle.data_set_pairs.specs.Table.{set_rank, page_rank, RunFromZero, HasPlace};

use crate::place::{PagePlace, count_before, set_rank};
use hal_base::SetId;

fn page_rank(set: SetId, page: u16) -> u64
    ensures { result ≡ set_rank set * 65536 + page }
{
    set_rank(set) * 65536 + u64::from(page)
}

/// Puts the pages in order, and answers whether each data set has the page numbers from 0 on, each once.
pub(crate) fn settle(pages: &mut Vec<PagePlace>) -> bool
    requires small { All (λ p. HasPlace p.set) pages.old.items }
    requires pages { All (λ p. p.page < 2 ^ 16) pages.old.items }
    ensures same { IsPermutation pages.old.items pages.new.items }
    ensures order { IsNonDecreasingBy page_rank pages.new.items }
    ensures run { IsTrue result ↔ RunFromZero pages.new.items }
{
    pages.sort_unstable_by_key(|place| page_rank(place.set, place.page));
    runs_from_zero(pages)
}

/// Whether the pages of each data set have the numbers from 0 on.
fn runs_from_zero(pages: &[PagePlace]) -> bool
    requires order { IsNonDecreasingBy page_rank pages.now }
    requires small { All (λ p. HasPlace p.set) pages.now }
    requires pages { All (λ p. p.page < 2 ^ 16) pages.now }
    ensures { IsTrue result ↔ RunFromZero pages.now }
{
    for (i, place) in pages.iter().enumerate() {
        if u32::from(place.page) != count_before(&pages[..i], place.set) {
            return false;
        }
    }
    true
}
