// Rows put into a set over a shelf in memory that tells nothing. The set is opened anew before each call.
ghost use Rattle.std.specs.Prelude.{◌+◌, ◌<◌, ◌≤◌};

use crate::key_of;
use hal_base::{BLOCK, PageFault, SetId, Shelf};
use keyed_sets::{KeyedSet, RowShape};
use memory_shelf::QuietShelf;
use std::alloc::Global;
use std::test::Fail;

const SET: SetId = SetId {
    part: 1,
    number: 1,
    letter: b'X',
};

/// Puts a row of a number, whose body is filled with a byte.
fn put(
    alloc: Global,
    shelf: &mut QuietShelf,
    lengths: RowShape,
    number: u16,
    byte: u8,
) -> Result<(), PageFault>
    requires some { 0 < lengths.key }
    requires short { lengths.key + lengths.body ≤ 2040 }
{
    let Ok(mut set) = KeyedSet::open(alloc, shelf, SET, lengths.key, lengths.body) else {
        return Err(PageFault::Memory);
    };
    let mut bytes = [0; 2040];
    let [high, low] = number.to_be_bytes();
    bytes[2038] = high;
    bytes[2039] = low;
    let key = &bytes[2040 - usize::from(lengths.key)..];
    let filled = [byte; 2040];
    let body = &filled[..usize::from(lengths.body)];
    set.put(shelf, key, body)
}

fn remove(
    alloc: Global,
    shelf: &mut QuietShelf,
    lengths: RowShape,
    number: u16,
) -> Result<bool, PageFault>
    requires some { 0 < lengths.key }
    requires short { lengths.key + lengths.body ≤ 2040 }
{
    let Ok(mut set) = KeyedSet::open(alloc, shelf, SET, lengths.key, lengths.body) else {
        return Err(PageFault::Memory);
    };
    let mut bytes = [0; 2040];
    let [high, low] = number.to_be_bytes();
    bytes[2038] = high;
    bytes[2039] = low;
    set.remove(shelf, &bytes[2040 - usize::from(lengths.key)..])
}

/// The last byte of the body of a number's row, 0 where there is none.
fn get(
    alloc: Global,
    shelf: &mut QuietShelf,
    lengths: RowShape,
    number: u16,
) -> Result<u8, PageFault>
    requires some { 0 < lengths.key }
    requires short { lengths.key + lengths.body ≤ 2040 }
{
    let Ok(mut set) = KeyedSet::open(alloc, shelf, SET, lengths.key, lengths.body) else {
        return Err(PageFault::Memory);
    };
    let mut bytes = [0; 2040];
    let [high, low] = number.to_be_bytes();
    bytes[2038] = high;
    bytes[2039] = low;
    let found = set.get(shelf, &bytes[2040 - usize::from(lengths.key)..])?;
    Ok(found.map_or(0, |body| body.as_slice().last().copied().unwrap_or(0)))
}

const SHORT: RowShape = RowShape { key: 3, body: 4 };

const LONG: RowShape = RowShape { key: 4, body: 2036 };

#[test]
fn a_row_is_its_key_and_its_body(rt: HostRuntime) -> Result<(), Fail> {
    let mut shelf = QuietShelf::new(rt.alloc(), 1);
    let Ok(mut set) = KeyedSet::open(rt.alloc(), &mut shelf, SET, 3, 4) else {
        return Err("opened".into());
    };
    let done = set.put(&mut shelf, &key_of(100), &[0, 0, 0, 16]);
    assert_eq!(rt; done, Ok(()));
    let mut page = [7; BLOCK];
    if shelf.pages(SET) > 0 {
        assert_eq!(rt; shelf.fetch_page(SET, 0, &mut page), Ok(()));
    }
    assert_eq!(rt; &page[8..10], [0, 1].as_slice());
    assert_eq!(rt; &page[16..24], b"100\0\0\0\x10\0".as_slice());
    Ok(())
}

#[test]
fn of_583_rising_keys_the_first_and_the_last_add_a_page(rt: HostRuntime) {
    let mut shelf = QuietShelf::new(rt.alloc(), 2);
    for number in 0..583 {
        assert_eq!(rt; put(rt.alloc(), &mut shelf, SHORT, number, 1), Ok(()));
        let wanted = if number < 582 { 1 } else { 2 };
        assert_eq!(rt; shelf.pages(SET), wanted, "{number}");
    }
}

/// Whether the rows of all numbers below 64 are those of a plain table.
fn is_kept(
    alloc: Global,
    shelf: &mut QuietShelf,
    lengths: RowShape,
    table: &[u8; 64],
) -> Result<bool, PageFault>
    requires some { 0 < lengths.key }
    requires short { lengths.key + lengths.body ≤ 2040 }
{
    for (number, byte) in table.iter().enumerate() {
        if get(alloc, shelf, lengths, number as u16)? != *byte {
            return Ok(false);
        }
    }
    Ok(true)
}

/// Puts and removes rows by a row of numbers, and keeps their bytes in a plain table.
fn agrees(alloc: Global, lengths: RowShape, step: u16) -> Result<bool, PageFault>
    requires some { 0 < lengths.key }
    requires short { lengths.key + lengths.body ≤ 2040 }
{
    let mut shelf = QuietShelf::new(alloc, 64);
    let mut table = [0; 64];
    for turn in 0..96u16 {
        let number = turn.wrapping_mul(step) % 64;
        let byte = turn as u8 + 1;
        if turn % 5 == 4 {
            let there = table[usize::from(number)] != 0;
            if remove(alloc, &mut shelf, lengths, number)? != there {
                return Ok(false);
            }
            table[usize::from(number)] = 0;
        } else {
            put(alloc, &mut shelf, lengths, number, byte)?;
            table[usize::from(number)] = byte;
        }
    }
    is_kept(alloc, &mut shelf, lengths, &table)
}

#[test]
fn rows_are_kept_as_a_plain_table_keeps_them(rt: HostRuntime) {
    let eight = RowShape { key: 4, body: 4 };
    for lengths in [SHORT, eight, LONG] {
        for step in [1, 63, 27] {
            assert!(rt; 0 < lengths.key && lengths.key < 100 && lengths.body < 1900 + 137);
            assert!(rt; lengths.key + lengths.body <= 2040);
            assert_eq!(rt; agrees(rt.alloc(), lengths, step), Ok(true), "{step}");
        }
    }
}

#[test]
fn a_full_page_splits_at_each_place_of_the_key(rt: HostRuntime) {
    for number in [5, 15, 25] {
        let mut shelf = QuietShelf::new(rt.alloc(), 2);
        for first in [10, 20, number] {
            assert_eq!(rt; put(rt.alloc(), &mut shelf, LONG, first, 7), Ok(()));
        }
        assert_eq!(rt; shelf.pages(SET), 2);
        for first in [10, 20, number] {
            assert_eq!(rt; get(rt.alloc(), &mut shelf, LONG, first), Ok(7));
        }
    }
}

#[test]
fn no_room_leaves_the_rows(rt: HostRuntime) {
    let mut shelf = QuietShelf::new(rt.alloc(), 1);
    for number in [10, 20] {
        assert_eq!(rt; put(rt.alloc(), &mut shelf, LONG, number, 7), Ok(()));
    }
    for number in [5, 15, 25] {
        let done = put(rt.alloc(), &mut shelf, LONG, number, 8);
        assert_eq!(rt; done, Err(PageFault::NoRoom), "{number}");
        assert_eq!(rt; get(rt.alloc(), &mut shelf, LONG, number), Ok(0));
    }
    assert_eq!(rt; put(rt.alloc(), &mut shelf, LONG, 20, 9), Ok(()));
    assert_eq!(rt; get(rt.alloc(), &mut shelf, LONG, 10), Ok(7));
    assert_eq!(rt; get(rt.alloc(), &mut shelf, LONG, 20), Ok(9));
}

#[test]
fn a_page_that_was_emptied_is_used_again(rt: HostRuntime) {
    let mut shelf = QuietShelf::new(rt.alloc(), 2);
    for number in [10, 20, 30] {
        assert_eq!(rt; put(rt.alloc(), &mut shelf, LONG, number, 7), Ok(()));
    }
    assert_eq!(rt; remove(rt.alloc(), &mut shelf, LONG, 30), Ok(true));
    assert_eq!(rt; put(rt.alloc(), &mut shelf, LONG, 15, 8), Ok(()));
    assert_eq!(rt; shelf.pages(SET), 2);
    assert_eq!(rt; get(rt.alloc(), &mut shelf, LONG, 15), Ok(8));
    assert_eq!(rt; get(rt.alloc(), &mut shelf, LONG, 20), Ok(7));
}
