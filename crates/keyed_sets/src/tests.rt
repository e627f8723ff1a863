//! Rows of one page.
use crate::RowShape;
use crate::check::{capacity, page_break};
use crate::page::{body_at, count_in, has_place, has_room, key_at, place_in};
use crate::page_edits::{insert_row, move_rows, remove_row};
use hal_base::{BLOCK, SetId, empty_page};

const SET: SetId = SetId {
    part: 1,
    number: 1,
    letter: b'L',
};

const SHAPE: RowShape = RowShape { key: 3, body: 4 };

/// Puts a row where its key belongs, where it has room.
fn put_row(shape: RowShape, page: &mut [u8; BLOCK], key: &[u8], body: &[u8]) -> bool {
    let lengths = key.len() == usize::from(shape.key) && body.len() == usize::from(shape.body);
    if shape.key == 0 || !lengths || !has_place(shape, page) || !has_room(shape, page) {
        return false;
    }
    let at = place_in(shape, page, key);
    insert_row(shape, page, at, key, body);
    true
}

/// Takes the row of this key away, if there is one.
fn take_row(shape: RowShape, page: &mut [u8; BLOCK], key: &[u8]) -> bool {
    if !has_place(shape, page) {
        return false;
    }
    let at = place_in(shape, page, key);
    if at == count_in(page) || key_at(shape, page, at) != key {
        return false;
    }
    remove_row(shape, page, at);
    true
}

#[test]
fn a_row_is_its_key_and_its_body(rt: HostRuntime) {
    let mut page = empty_page(SET, 2, 0);
    assert!(rt; put_row(SHAPE, &mut page, b"100", &[0, 0, 0, 16]));
    assert_eq!(rt;
        &page[8..24],
        [0, 1, 0, 0, 0, 0, 0, 0, 0x31, 0x30, 0x30, 0, 0, 0, 0x10, 0].as_slice()
    );
    assert!(rt; has_place(SHAPE, &page) && count_in(&page) == 1);
    assert_eq!(rt; body_at(SHAPE, &page, 0), [0, 0, 0, 16].as_slice());
    assert_eq!(rt; place_in(SHAPE, &page, b"100"), 0);
    assert_eq!(rt; place_in(SHAPE, &page, b"101"), 1);
    assert!(rt; take_row(SHAPE, &mut page, b"100"));
    assert!(rt; !take_row(SHAPE, &mut page, b"100"));
    assert_eq!(rt; page, empty_page(SET, 2, 0));
}

/// Puts rows of rising keys until one has no room, and answers how many had.
fn fill(page: &mut [u8; BLOCK]) -> u16 {
    for i in 0..4096u16 {
        let [high, low] = i.to_be_bytes();
        if !put_row(SHAPE, page, &[0, high, low], &[7; 4]) {
            return i;
        }
    }
    4096
}

#[test]
fn the_upper_half_of_a_full_page_moves(rt: HostRuntime) {
    let mut page = empty_page(SET, 2, 0);
    assert_eq!(rt; fill(&mut page), 582);
    let full = page;
    let mut second = empty_page(SET, 2, 1);
    let from = count_in(&page) - count_in(&page) / 2;
    assert!(rt; has_place(SHAPE, &page) && count_in(&second) == 0);
    move_rows(SHAPE, &mut page, from, &mut second);
    assert_eq!(rt; (count_in(&page), count_in(&second)), (291, 291));
    assert_eq!(rt; &page[16..2053], &full[16..2053]);
    assert_eq!(rt; &page[2053..], [0; 2043].as_slice());
    assert_eq!(rt; &second[16..2053], &full[2053..4090]);
    assert_eq!(rt; &second[2053..], [0; 2043].as_slice());
}

/// The page has exactly the rows of these numbers, rising.
fn has_rows(shape: RowShape, page: &[u8; BLOCK], present: &[bool; 8]) -> bool {
    if !has_place(shape, page) {
        return false;
    }
    let mut at = 0;
    for (number, is_there) in present.iter().enumerate() {
        if *is_there {
            if at >= count_in(page) || key_at(shape, page, at).last() != Some(&(number as u8)) {
                return false;
            }
            at += 1;
        }
    }
    at == count_in(page)
}

/// Puts the rows of these numbers and takes them away again, in the same order.
fn goes_through(shape: RowShape, order: &[u8]) -> bool {
    let mut page = empty_page(SET, 2, 0);
    let mut present = [false; 8];
    for number in order {
        let mut key = [0; 20];
        let size = usize::from(shape.key.min(20));
        key[size.saturating_sub(1)] = *number;
        let body = [*number; 2037];
        if !put_row(
            shape,
            &mut page,
            &key[..size],
            &body[..usize::from(shape.body.min(2037))],
        ) {
            return false;
        }
        present[usize::from(*number % 8)] = true;
        if !has_rows(shape, &page, &present) {
            return false;
        }
    }
    for number in order {
        let mut key = [0; 20];
        let size = usize::from(shape.key.min(20));
        key[size.saturating_sub(1)] = *number;
        present[usize::from(*number % 8)] = false;
        if !take_row(shape, &mut page, &key[..size]) || !has_rows(shape, &page, &present) {
            return false;
        }
    }
    page == empty_page(SET, 2, 0)
}

#[test]
fn rows_rise_whatever_order_they_come_in(rt: HostRuntime) {
    for shape in [RowShape { key: 4, body: 4 }, SHAPE] {
        for order in [[1, 2, 3, 4, 5, 6], [6, 5, 4, 3, 2, 1], [4, 1, 6, 3, 5, 2]] {
            assert!(rt; goes_through(shape, &order));
        }
    }
    let pair = RowShape { key: 3, body: 2037 };
    assert!(rt; goes_through(pair, &[1, 2]));
    assert!(rt; goes_through(pair, &[2, 1]));
    assert!(rt; !goes_through(pair, &[2, 1, 3]));
}

#[test]
fn a_page_breaks_at_its_first_row_that_does_not_rise(rt: HostRuntime) {
    let mut page = empty_page(SET, 2, 0);
    assert_eq!(rt; capacity(SHAPE), 582);
    assert_eq!(rt; page_break(SHAPE, &page), None);
    assert_eq!(rt; fill(&mut page), 582);
    assert_eq!(rt; page_break(SHAPE, &page), None);
    page[4095] = 1;
    assert_eq!(rt; page_break(SHAPE, &page), Some(16));
    page[9] = 0xff;
    assert_eq!(rt; page_break(SHAPE, &page), Some(16));
    page[32] = page[25];
    assert_eq!(rt; page_break(SHAPE, &page), Some(30));
    page[0] = 1;
    assert_eq!(rt; page_break(SHAPE, &page), Some(16));
}
