// A set of rows over a shelf in memory that tells nothing: its pages are laid out by the test.
use crate::key_of;
use hal_base::{BLOCK, SetId, Shelf, StoreFault};
use keyed_sets::KeyedSet;
use memory_shelf::QuietShelf;
use std::alloc::Global;
use std::test::Fail;

const SET: SetId = SetId {
    part: 1,
    number: 1,
    letter: b'X',
};

/// A page with rows of these numbers, one behind the other.
fn put_numbers(page: &mut [u8; BLOCK], numbers: &[u8]) {
    for (at, number) in numbers.iter().enumerate() {
        let start = 16 + 7 * at.min(500);
        page[start..start + 3].copy_from_slice(&key_of(*number));
        page[start + 6] = *number;
    }
    page[9] = numbers.len().min(255) as u8;
}

/// Adds a page with rows of these numbers to the set.
fn add_page(shelf: &mut QuietShelf, numbers: &[u8]) -> Result<(), Fail> {
    let Ok(n) = shelf.grow(SET, 2) else {
        return Err("grown".into());
    };
    let mut page = [0; BLOCK];
    if u32::from(n) >= shelf.pages(SET) || shelf.fetch_page(SET, n, &mut page).is_err() {
        return Err("fetched".into());
    }
    put_numbers(&mut page, numbers);
    if shelf.stage_page(SET, n, &page).is_err() {
        return Err("staged".into());
    }
    Ok(())
}

/// A shelf with two pages of rows, of which the first has the higher keys, and one of none.
fn shelf_of(alloc: Global) -> Result<QuietShelf, Fail> {
    let mut shelf = QuietShelf::new(alloc, 4);
    add_page(&mut shelf, &[106, 107, 108])?;
    add_page(&mut shelf, &[])?;
    add_page(&mut shelf, &[100, 102])?;
    Ok(shelf)
}

fn opened(alloc: Global, shelf: &mut QuietShelf) -> Result<KeyedSet, StoreFault> {
    KeyedSet::open(alloc, shelf, SET, 3, 4)
}

/// The last byte of the body of a key's row, 0 where there is none.
fn get(alloc: Global, shelf: &mut QuietShelf, number: u8) -> Result<u8, Fail> {
    let Ok(mut set) = KeyedSet::open(alloc, shelf, SET, 3, 4) else {
        return Err("opened".into());
    };
    let found = set.get(shelf, &key_of(number)).ok().ok_or("got")?;
    Ok(found.map_or(0, |body| body.as_slice().last().copied().unwrap_or(0)))
}

fn next(alloc: Global, shelf: &mut QuietShelf, number: Option<u8>) -> Result<u8, Fail> {
    let Ok(mut set) = KeyedSet::open(alloc, shelf, SET, 3, 4) else {
        return Err("opened".into());
    };
    let found = match number {
        Some(number) => set.next_after(shelf, Some(&key_of(number))),
        None => set.next_after(shelf, None),
    };
    let row = found.ok().ok_or("found")?;
    Ok(row.map_or(0, |row| row.1.as_slice().last().copied().unwrap_or(0)))
}

fn before(alloc: Global, shelf: &mut QuietShelf, number: u8) -> Result<u8, Fail> {
    let Ok(mut set) = KeyedSet::open(alloc, shelf, SET, 3, 4) else {
        return Err("opened".into());
    };
    let row = set.before(shelf, &key_of(number)).ok().ok_or("found")?;
    Ok(row.map_or(0, |row| row.1.as_slice().last().copied().unwrap_or(0)))
}

fn remove(alloc: Global, shelf: &mut QuietShelf, number: u8) -> Result<bool, Fail> {
    let Ok(mut set) = KeyedSet::open(alloc, shelf, SET, 3, 4) else {
        return Err("opened".into());
    };
    Ok(set.remove(shelf, &key_of(number)).ok().ok_or("removed")?)
}

#[test]
fn a_row_is_found_by_its_key(rt: HostRuntime) -> Result<(), Fail> {
    let mut shelf = shelf_of(rt.alloc())?;
    for (number, wanted) in [
        (100, 100),
        (102, 102),
        (106, 106),
        (108, 108),
        (101, 0),
        (99, 0),
        (109, 0),
    ] {
        assert_eq!(rt; get(rt.alloc(), &mut shelf, number)?, wanted);
    }
    Ok(())
}

#[test]
fn neighbours_are_found_across_pages(rt: HostRuntime) -> Result<(), Fail> {
    let mut shelf = shelf_of(rt.alloc())?;
    assert_eq!(rt; next(rt.alloc(), &mut shelf, None)?, 100);
    for (number, wanted) in [
        (99, 100),
        (100, 102),
        (102, 106),
        (103, 106),
        (107, 108),
        (108, 0),
    ] {
        assert_eq!(rt; next(rt.alloc(), &mut shelf, Some(number))?, wanted);
    }
    for (number, wanted) in [(100, 0), (101, 100), (106, 102), (108, 107), (109, 108)] {
        assert_eq!(rt; before(rt.alloc(), &mut shelf, number)?, wanted);
    }
    Ok(())
}

#[test]
fn a_row_is_removed_once(rt: HostRuntime) -> Result<(), Fail> {
    let mut shelf = shelf_of(rt.alloc())?;
    for number in [100, 102] {
        assert!(rt; remove(rt.alloc(), &mut shelf, number)?);
        assert!(rt; !remove(rt.alloc(), &mut shelf, number)?);
        assert_eq!(rt; get(rt.alloc(), &mut shelf, number)?, 0);
    }
    assert_eq!(rt; next(rt.alloc(), &mut shelf, None)?, 106);
    assert_eq!(rt; before(rt.alloc(), &mut shelf, 106)?, 0);
    Ok(())
}

#[test]
fn pages_that_are_no_set_are_said_at_their_place(rt: HostRuntime) -> Result<(), Fail> {
    for (numbers, page, offset) in [
        ([101, 103].as_slice(), 3, 16),
        ([104, 103].as_slice(), 3, 23),
        ([104, 105, 104].as_slice(), 3, 30),
    ] {
        let mut shelf = shelf_of(rt.alloc())?;
        add_page(&mut shelf, numbers)?;
        let fault = opened(rt.alloc(), &mut shelf).err().ok_or("a set")?;
        assert_eq!(rt; fault, StoreFault::BadTile { page, offset });
    }
    Ok(())
}
