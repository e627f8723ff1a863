// Reading a page of rows.
ghost use Rattle.std.specs.Prelude.{◌≡◌, ◌≤◌, ◌<◌, ◌+◌, ◌*◌, ◌↔◌, length, IsTrue, Some, slice_get, take, drop};
ghost use Rattle.std.specs.Option.{option_map};
ghost use Rattle.keyed_sets.specs.Layout.{rows_in, count_of, end_of, HasPlace, place_of, is_below};
ghost use Rattle.keyed_sets.specs.Rule.{Rise};

use crate::RowShape;
use crate::row::{end_of, length_of};
use hal_base::{BLOCK, get16};

/// The count of rows in the head of a page.
pub(crate) fn count_in(page: &[u8; BLOCK]) -> u16
    ensures { result ≡ count_of page.now }
{
    get16(page, 8)
}

/// The rows that the head counts have place in the page.
pub(crate) fn has_place(shape: RowShape, page: &[u8; BLOCK]) -> bool
    ensures { IsTrue result ↔ HasPlace shape page.now }
{
    end_of(shape, usize::from(count_in(page))) <= BLOCK
}

/// One row more has place in the page.
pub(crate) fn has_room(shape: RowShape, page: &[u8; BLOCK]) -> bool
    ensures { IsTrue result ↔ (end_of shape (count_of page.now + 1) ≤ 4096) }
{
    end_of(shape, usize::from(count_in(page)) + 1) <= BLOCK
}

/// The key that stands at a place, whether the head counts its row or not.
pub(crate) fn key_from(shape: RowShape, page: &[u8; BLOCK], at: u16) -> &[u8]
    requires { end_of shape (at + 1) ≤ 4096 }
    ensures { result.now ≡ take shape.key (drop (end_of shape at) page.now) }
{
    let start = end_of(shape, usize::from(at));
    &page[start..start + usize::from(shape.key)]
}

/// The key of the row at a place.
pub(crate) fn key_at(shape: RowShape, page: &[u8; BLOCK], at: u16) -> &[u8]
    requires place { HasPlace shape page.now }
    requires within { at < count_of page.now }
    ensures key { option_map (λ row. row.0) (slice_get (rows_in shape page.now) at) ≡ Some result.now }
    ensures long { length result.now ≡ shape.key }
{
    key_from(shape, page, at)
}

/// The body of the row at a place.
pub(crate) fn body_at(shape: RowShape, page: &[u8; BLOCK], at: u16) -> &[u8]
    requires place { HasPlace shape page.now }
    requires within { at < count_of page.now }
    ensures body { option_map (λ row. row.1) (slice_get (rows_in shape page.now) at) ≡ Some result.now }
    ensures long { length result.now ≡ shape.body }
{
    let start = end_of(shape, usize::from(at)) + usize::from(shape.key);
    &page[start..start + usize::from(shape.body)]
}

/// How many rows at the front of the page have keys below this one, where its rows rise.
pub(crate) fn place_in(shape: RowShape, page: &[u8; BLOCK], key: &[u8]) -> u16
    requires { HasPlace shape page.now }
    ensures place { Rise (rows_in shape page.now) → result ≡ place_of key.now (rows_in shape page.now) }
    ensures within { result ≤ count_of page.now }
{
    let mut low = 0;
    let mut high = count_in(page);
    while low < high {
        let middle = low + (high - low) / 2;
        if is_below(key_at(shape, page, middle), key) {
            low = middle + 1;
        } else {
            high = middle;
        }
    }
    low
}

pub(crate) fn is_below(a: &[u8], b: &[u8]) -> bool
    ensures { result ≡ is_below a.now b.now }
{
    a.cmp(b).is_lt()
}
