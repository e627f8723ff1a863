// Changes of the rows of a page. What a page's head says beside the count of rows stays.
ghost use Rattle.std.specs.Prelude.{◌≡◌, ◌≤◌, ◌<◌, ◌+◌, ◌-◌, length, take, drop, replicate, insert, slice_get, slice_set, IsTrue, Some, List, ℕ, true, false};
ghost use Rattle.std.specs.List.{copy_within, remove};
ghost use Rattle.std.specs.Option.{option_map};
ghost use Rattle.keyed_sets.specs.Layout.{HasShape, HasPlace, PutsRows, rows_in, count_of, end_of, place_of};
ghost use Rattle.keyed_sets.specs.Map.{with_row};
ghost use Rattle.keyed_sets.specs.Rule.{Rise};
ghost use Rattle.hal_base.specs.Bytes.{Writes};
ghost use Rattle.keyed_sets.specs.PageFacts.{HasKeyAt, Split};

use crate::RowShape;
use crate::page::count_in;
use crate::row::{end_of, length_of};
use hal_base::{BLOCK, put16};

fn put(bytes: &mut [u8], at: usize, content: &[u8])
    requires { at + length content.now ≤ length bytes.old }
    ensures { Writes bytes.old bytes.new at content.now }
{
    bytes[at..at + content.len()].copy_from_slice(content);
}

fn put_zeros(bytes: &mut [u8], at: usize, count: usize)
    requires { at + count ≤ length bytes.old }
    ensures { Writes bytes.old bytes.new at (replicate count 0) }
{
    bytes[at..at + count].fill(0);
}

fn shift(bytes: &mut [u8], start: usize, end: usize, to: usize)
    requires ordered { start ≤ end }
    requires within { end ≤ length bytes.old }
    requires room { to + (end - start) ≤ length bytes.old }
    ensures { bytes.new ≡ copy_within bytes.old start end to }
{
    bytes.copy_within(start..end, to);
}

/// Puts a row before the row at a place, or behind the last.
pub(crate) fn insert_row(shape: RowShape, page: &mut [u8; BLOCK], at: u16, key: &[u8], body: &[u8])
    requires some { 0 < shape.key }
    requires room { end_of shape (count_of page.old + 1) ≤ 4096 }
    requires within { at ≤ count_of page.old }
    requires shaped { HasShape shape (key.now, body.now) }
    ensures { PutsRows shape page.old page.new (insert (rows_in shape page.old) at (key.now, body.now)) }
{
    let count = count_in(page);
    let start = end_of(shape, usize::from(at));
    let end = end_of(shape, usize::from(count));
    shift(page, start, end, start + length_of(shape));
    put(page, start, key);
    put(page, start + key.len(), body);
    put16(page, 8, count + 1);
}

/// Takes the row at a place away.
pub(crate) fn remove_row(shape: RowShape, page: &mut [u8; BLOCK], at: u16)
    requires place { HasPlace shape page.old }
    requires within { at < count_of page.old }
    ensures { PutsRows shape page.old page.new (remove (rows_in shape page.old) at) }
{
    let count = count_in(page);
    let size = length_of(shape);
    let start = end_of(shape, usize::from(at));
    let end = end_of(shape, usize::from(count));
    shift(page, start + size, end, start);
    put_zeros(page, end - size, size);
    put16(page, 8, count - 1);
}

/// Moves the rows from a place on to a page without rows.
pub(crate) fn move_rows(
    shape: RowShape,
    page: &mut [u8; BLOCK],
    from: u16,
    second: &mut [u8; BLOCK],
)
    requires place { HasPlace shape page.old }
    requires within { from ≤ count_of page.old }
    requires empty { count_of second.old ≡ 0 }
    ensures kept { PutsRows shape page.old page.new (take from (rows_in shape page.old)) }
    ensures moved { PutsRows shape second.old second.new (drop from (rows_in shape page.old)) }
{
    let count = count_in(page);
    let start = end_of(shape, usize::from(from));
    let end = end_of(shape, usize::from(count));
    put(second, 16, &page[start..end]);
    put16(second, 8, count - from);
    put_zeros(page, start, end - start);
    put16(page, 8, from);
}

/// Puts another body in the place of that of the row at a place, which has this key.
fn replace_body(shape: RowShape, page: &mut [u8; BLOCK], at: u16, key: &[u8], body: &[u8])
    requires place { HasPlace shape page.old }
    requires there { HasKeyAt shape page.old at key.now }
    requires shaped { HasShape shape (key.now, body.now) }
    ensures { PutsRows shape page.old page.new (slice_set (rows_in shape page.old) at (key.now, body.now)) }
{
    let start = end_of(shape, usize::from(at)) + usize::from(shape.key);
    put(page, start, body);
}

/// Puts a row at the place of its key; over the body of the row of its key, where that is found there.
pub(crate) fn set_row(
    shape: RowShape,
    page: &mut [u8; BLOCK],
    at: u16,
    found: bool,
    key: &[u8],
    body: &[u8],
)
    requires some { 0 < shape.key }
    requires place { HasPlace shape page.old }
    requires within { at ≤ count_of page.old }
    requires found { found ≡ true → HasKeyAt shape page.old at key.now }
    requires missing { found ≡ false → HasKeyAt shape page.old at key.now → ⊥ }
    requires room { found ≡ false → end_of shape (count_of page.old + 1) ≤ 4096 }
    requires shaped { HasShape shape (key.now, body.now) }
    ensures puts { Rise (rows_in shape page.old) → at ≡ place_of key.now (rows_in shape page.old) → PutsRows shape page.old page.new (with_row (key.now, body.now) (rows_in shape page.old)) }
    ensures place { HasPlace shape page.new }
    ensures some { 0 < count_of page.new }
{
    if found {
        replace_body(shape, page, at, key, body);
    } else {
        insert_row(shape, page, at, key, body);
    }
}

/// Splits a full page: the upper half of its rows moves to a page without rows, and a new row, whose place in the full
/// page is known, goes behind the first of these or before it.
pub(crate) fn split_rows(
    shape: RowShape,
    page: &mut [u8; BLOCK],
    second: &mut [u8; BLOCK],
    at: u16,
    key: &[u8],
    body: &[u8],
)
    requires some { 0 < shape.key }
    requires place { HasPlace shape page.old }
    requires within { at ≤ count_of page.old }
    requires many { 1 < count_of page.old }
    requires empty { count_of second.old ≡ 0 }
    requires shaped { HasShape shape (key.now, body.now) }
    ensures split { Split shape page.old page.new second.old second.new (key.now, body.now) at }
    ensures kept { HasPlace shape page.new × (0 < count_of page.new) }
    ensures moved { HasPlace shape second.new × (0 < count_of second.new) }
{
    let count = count_in(page);
    let from = count - count / 2;
    move_rows(shape, page, from, second);
    if at > from {
        insert_row(shape, second, at - from, key, body);
    } else {
        insert_row(shape, page, at, key, body);
    }
}
