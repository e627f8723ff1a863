// A table of pages under states that leave data sets behind.
ghost use Rattle.std.specs.Prelude.{◌≡◌, ◌≤◌, ◌++◌, ℕ, Bool, not, length, map, reverse, filter, IfOk};
ghost use Rattle.std.specs.List.{list_any};
ghost use Rattle.std.specs.List.Sorted.{IsStrictlyIncreasing};
ghost use Rattle.volume_image.specs.Header.{is_left};
ghost use Rattle.data_set_pairs.specs.Leaving.{TakesOut};

use crate::place::PagePlace;
use crate::table::Table;
use hal_base::{Memory, PartState};
use std::alloc::Global;
use volume_image::is_left;

/// The pages of the data sets that aren't left behind.
fn kept_pages(
    alloc: Global,
    pages: &[PagePlace],
    states: &[PartState],
) -> Result<Vec<PagePlace>, Memory>
    ensures { IfOk result (λ kept. kept.items ≡ filter (λ p. not (is_left states.now p.set)) pages.now) }
{
    let mut kept = Vec::new(alloc);
    for place in pages {
        if !is_left(states, place.set) {
            kept.push(*place)?;
        }
    }
    Ok(kept)
}

/// Adds the blocks of the pages of data sets that are left behind.
fn add_left(free: &mut Vec<u32>, pages: &[PagePlace], states: &[PartState]) -> Result<(), Memory>
    ensures { IfOk result (λ done. free.new.items ≡ free.old.items ++ map (λ p. p.block) (filter (λ p. is_left states.now p.set) pages.now)) }
{
    for place in pages {
        if is_left(states, place.set) {
            free.push(place.block)?;
        }
    }
    Ok(())
}

/// Puts block numbers in falling order, each once.
fn fall(free: &mut Vec<u32>)
    ensures rise { IsStrictlyIncreasing (reverse free.new.items) }
    ensures same { (test : ℕ → Bool) → list_any test (reverse free.new.items) ≡ list_any test free.old.items }
    ensures few { length free.new.items ≤ length free.old.items }
{
    free.sort_unstable();
    free.dedup();
    free.reverse();
}

/// The table in which the blocks of data sets that are left behind are free.
pub(crate) fn without_left(
    alloc: Global,
    table: &Table,
    states: &[PartState],
) -> Result<Table, Memory>
    ensures { IfOk result (λ less. TakesOut states.now table.now less) }
{
    let pages = kept_pages(alloc, &table.pages, states)?;
    let mut free = Vec::from_slice(alloc, &table.free)?;
    add_left(&mut free, &table.pages, states)?;
    fall(&mut free);
    Ok(Table { pages, free })
}
