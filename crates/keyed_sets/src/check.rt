// Whether a page is a page of rows, and where it first isn't.
ghost use Rattle.std.specs.Prelude.{◌≡◌, ◌≤◌, ◌<◌, ◌+◌, ◌-◌, ◌↔◌, IsTrue, IfSome, IfNone, drop, min, replicate};
ghost use Rattle.keyed_sets.specs.Layout.{count_of, end_of, rows_from, HasPlace};
ghost use Rattle.keyed_sets.specs.Rule.{IsRowPage, capacity, rising_count, break_place};

use crate::RowShape;
use crate::page::{count_in, is_below, key_from};
use crate::row::{end_of, length_of};
use hal_base::BLOCK;

/// How many rows have place in a page.
pub(crate) fn capacity(shape: RowShape) -> u16
    requires { 0 < shape.key }
    ensures { result ≡ capacity shape }
{
    (4080 / length_of(shape)) as u16
}

/// How many of the first rows of a page rise.
fn rising_in(shape: RowShape, page: &[u8; BLOCK], count: u16) -> u16
    requires { end_of shape count ≤ 4096 }
    ensures { result ≡ rising_count (rows_from shape count (drop 16 page.now)) }
{
    for at in 1..count {
        let last = key_from(shape, page, at - 1);
        let next = key_from(shape, page, at);
        if !is_below(last, next) {
            return at;
        }
    }
    count
}

fn has_zeros(page: &[u8; BLOCK], from: usize) -> bool
    requires { from ≤ 4096 }
    ensures { IsTrue result ↔ (drop from page.now ≡ replicate (4096 - from) 0) }
{
    page[from..].iter().all(|byte| *byte == 0)
}

/// There are no more rows than these, and zeros behind them.
fn ends_with(shape: RowShape, page: &[u8; BLOCK], placed: u16) -> bool
    requires { end_of shape placed ≤ 4096 }
    ensures { IsTrue result ↔ ((count_of page.now ≤ placed) × (drop (end_of shape placed) page.now ≡ replicate (4096 - end_of shape placed) 0)) }
{
    count_in(page) <= placed && has_zeros(page, end_of(shape, usize::from(placed)))
}

/// Where a page isn't a page of rows by itself: the first row that has place and isn't above the one before it,
/// or 16 where there is no such row or the kind isn't 2.

pub(crate) fn page_break(shape: RowShape, page: &[u8; BLOCK]) -> Option<u16>
    requires { 0 < shape.key }
    ensures sound { IfNone result (IsRowPage shape page.now) }
    ensures broken { IfSome result (λ offset. (IsRowPage shape page.now → ⊥) × (offset ≡ break_place shape page.now)) }
{
    if page[0] != 2 {
        return Some(16);
    }
    let placed = count_in(page).min(capacity(shape));
    let rising = rising_in(shape, page, placed);
    if rising < placed {
        return Some(end_of(shape, usize::from(rising)) as u16);
    }
    if !ends_with(shape, page, placed) {
        return Some(16);
    }
    None
}
