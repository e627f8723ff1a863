// The store of cells over a shelf in memory that tells nothing. It is opened anew before each call.
ghost use Rattle.std.specs.Prelude.{◌≢◌, ◌≤◌};

use crate::cell_of;
use free_space::CellStore;
use hal_base::{BLOCK, Bytes, Ilk, List, PageFault, SetId, Shape, Shelf};
use memory_shelf::QuietShelf;
use segment_blocks::Cell;
use std::alloc::Global;
use std::test::Fail;

const SET: SetId = SetId {
    part: 1,
    number: 1,
    letter: b'A',
};

/// A type whose cells have 32 bytes.
const ROOT: Shape = Shape {
    children: 2,
    bytes: 5,
};

fn place(alloc: Global, shelf: &mut QuietShelf, shape: Shape, byte: u8) -> Result<u32, PageFault>
    requires { shape.bytes ≤ 2016 }
{
    let Ok(mut store) = CellStore::open(alloc, shelf, SET, &[shape]) else {
        return Err(PageFault::Memory);
    };
    let Ok(cell) = cell_of(alloc, 1, shape, byte) else {
        return Err(PageFault::Memory);
    };
    store.place(shelf, &cell)
}

fn append(
    alloc: Global,
    shelf: &mut QuietShelf,
    shape: Shape,
    byte: u8,
    fbff: u8,
    fspf: u8,
) -> Result<u32, PageFault>
    requires bytes { shape.bytes ≤ 2016 }
    requires step { fbff ≢ 1 }
{
    let Ok(mut store) = CellStore::open(alloc, shelf, SET, &[shape]) else {
        return Err(PageFault::Memory);
    };
    let Ok(cell) = cell_of(alloc, 1, shape, byte) else {
        return Err(PageFault::Memory);
    };
    store.append(shelf, &cell, fbff, fspf)
}

fn read(alloc: Global, shelf: &mut QuietShelf, shape: Shape, at: u32) -> Result<Cell, PageFault> {
    let Ok(store) = CellStore::open(alloc, shelf, SET, &[shape]) else {
        return Err(PageFault::Memory);
    };
    store.cell(shelf, at)
}

fn find(
    alloc: Global,
    shelf: &mut QuietShelf,
    shape: Shape,
    at: u32,
) -> Result<Option<Cell>, PageFault> {
    let Ok(store) = CellStore::open(alloc, shelf, SET, &[shape]) else {
        return Err(PageFault::Memory);
    };
    store.find(shelf, at)
}

fn give_back(
    alloc: Global,
    shelf: &mut QuietShelf,
    shape: Shape,
    at: u32,
) -> Result<(), PageFault> {
    let Ok(mut store) = CellStore::open(alloc, shelf, SET, &[shape]) else {
        return Err(PageFault::Memory);
    };
    store.give_back(shelf, at)
}

fn rewrite(
    alloc: Global,
    shelf: &mut QuietShelf,
    shape: Shape,
    at: u32,
    twin: u32,
    children: &List<u32>,
    content: &Bytes,
) -> Result<(), PageFault> {
    let Ok(store) = CellStore::open(alloc, shelf, SET, &[shape]) else {
        return Err(PageFault::Memory);
    };
    store.set_pointers(shelf, at, twin, children)?;
    store.set_data(shelf, at, content)?;
    let name = Ilk {
        addr: at,
        part: 2,
        number: 3,
    };
    store.set_name(shelf, at, name)?;
    store.mark_copied(shelf, at)
}

#[test]
fn the_lowest_hole_is_taken(rt: HostRuntime) {
    let mut shelf = QuietShelf::new(rt.alloc(), 2);
    assert_eq!(rt; append(rt.alloc(), &mut shelf, ROOT, 1, 0, 0), Ok(16));
    assert_eq!(rt; place(rt.alloc(), &mut shelf, ROOT, 2), Ok(48));
    assert_eq!(rt; give_back(rt.alloc(), &mut shelf, ROOT, 16), Ok(()));
    assert_eq!(rt; place(rt.alloc(), &mut shelf, ROOT, 3), Ok(16));
    assert_eq!(rt; append(rt.alloc(), &mut shelf, ROOT, 4, 0, 0), Ok(80));
}

/// Places a cell of a second type beside roots.
fn place_second(
    alloc: Global,
    shelf: &mut QuietShelf,
    shape: Shape,
    byte: u8,
) -> Result<u32, PageFault>
    requires { shape.bytes ≤ 2016 }
{
    let Ok(mut store) = CellStore::open(alloc, shelf, SET, &[ROOT, shape]) else {
        return Err(PageFault::Memory);
    };
    let Ok(cell) = cell_of(alloc, 2, shape, byte) else {
        return Err(PageFault::Memory);
    };
    store.place(shelf, &cell)
}

/// The address of the last of so many roots that are appended.
fn appended(alloc: Global, shelf: &mut QuietShelf, count: u8) -> Result<u32, PageFault> {
    let mut last = 0;
    for byte in 0..count {
        last = append(alloc, shelf, ROOT, byte, 2, 50)?;
    }
    Ok(last)
}

#[test]
fn a_page_is_left_empty_and_half_of_each_stays_free(rt: HostRuntime) {
    let mut shelf = QuietShelf::new(rt.alloc(), 3);
    assert_eq!(rt; appended(rt.alloc(), &mut shelf, 63), Ok(2000));
    assert_eq!(rt; append(rt.alloc(), &mut shelf, ROOT, 63, 2, 50), Ok(8208));
    assert_eq!(rt; shelf.pages(SET), 3);
    let mut page = [7; BLOCK];
    assert_eq!(rt; shelf.fetch_page(SET, 1, &mut page), Ok(()));
    assert_eq!(rt; &page[16..20], [0, 0, 15, 240].as_slice());
}

#[test]
fn no_page_is_opened_behind_the_one_that_stays_empty(rt: HostRuntime) {
    let mut shelf = QuietShelf::new(rt.alloc(), 2);
    assert_eq!(rt; appended(rt.alloc(), &mut shelf, 63), Ok(2000));
    let last = append(rt.alloc(), &mut shelf, ROOT, 63, 2, 50);
    assert_eq!(rt; last, Err(PageFault::NoRoom));
}

/// Places four roots, and gives those at some addresses back. It answers the address of the last.
fn placed_among_roots(
    alloc: Global,
    shelf: &mut QuietShelf,
    holes: &[u32],
) -> Result<u32, PageFault> {
    let mut last = 0;
    for byte in 0..4 {
        last = place(alloc, shelf, ROOT, byte)?;
    }
    for at in holes {
        give_back(alloc, shelf, ROOT, *at)?;
    }
    Ok(last)
}

#[test]
fn a_hole_of_a_cells_size_is_filled_and_joined_again(rt: HostRuntime) {
    let mut shelf = QuietShelf::new(rt.alloc(), 1);
    assert_eq!(rt; placed_among_roots(rt.alloc(), &mut shelf, &[48]), Ok(112));
    assert_eq!(rt; place(rt.alloc(), &mut shelf, ROOT, 9), Ok(48));
    assert_eq!(rt; place(rt.alloc(), &mut shelf, ROOT, 9), Ok(144));
    assert_eq!(rt; give_back(rt.alloc(), &mut shelf, ROOT, 16), Ok(()));
    assert_eq!(rt; give_back(rt.alloc(), &mut shelf, ROOT, 80), Ok(()));
    assert_eq!(rt; give_back(rt.alloc(), &mut shelf, ROOT, 48), Ok(()));
    let mut page = [7; BLOCK];
    if shelf.pages(SET) > 0 {
        assert_eq!(rt; shelf.fetch_page(SET, 0, &mut page), Ok(()));
    }
    assert_eq!(rt; &page[16..24], [0, 0, 0, 96, 0, 0, 0, 0].as_slice());
}

#[test]
fn a_hole_takes_a_cell_4_bytes_shorter_and_none_4_bytes_longer(rt: HostRuntime) {
    for (bytes, wanted) in [(8, 48), (9, 48), (12, 48), (13, 144)] {
        let mut shelf = QuietShelf::new(rt.alloc(), 1);
        assert_eq!(rt; placed_among_roots(rt.alloc(), &mut shelf, &[48]), Ok(112));
        let shape = Shape { children: 1, bytes };
        let at = place_second(rt.alloc(), &mut shelf, shape, 9);
        assert_eq!(rt; at, Ok(wanted), "{bytes}");
    }
}

#[test]
fn one_cell_is_changed(rt: HostRuntime) -> Result<(), Fail> {
    let mut shelf = QuietShelf::new(rt.alloc(), 1);
    assert_eq!(rt; placed_among_roots(rt.alloc(), &mut shelf, &[]), Ok(112));
    let children = List::from_slice(rt.alloc(), &[80, 112])?;
    let content = Bytes::from_slice(rt.alloc(), b"100aa")?;
    let done = rewrite(rt.alloc(), &mut shelf, ROOT, 48, 16, &children, &content);
    assert_eq!(rt; done, Ok(()));
    let cell = read(rt.alloc(), &mut shelf, ROOT, 48).ok().ok_or("read")?;
    assert!(rt; cell.copied && cell.code == 1);
    assert_eq!(rt;
        (cell.name.addr, cell.name.part, cell.name.number, cell.twin),
        (48, 2, 3, 16)
    );
    assert_eq!(rt; cell.children.as_slice(), [80, 112].as_slice());
    assert_eq!(rt; cell.content.as_slice(), b"100aa".as_slice());
    let other = read(rt.alloc(), &mut shelf, ROOT, 80).ok().ok_or("read")?;
    assert_eq!(rt; (other.copied, other.twin), (false, 0));
    assert_eq!(rt; other.content.as_slice(), [2, 2, 2, 2, 2].as_slice());
    Ok(())
}

/// The addresses, of some, at which a cell is found.
fn found_at(alloc: Global, shelf: &mut QuietShelf, asked: &[u32]) -> Result<Vec<u32>, PageFault> {
    let mut found = Vec::new(alloc);
    for at in asked {
        if find(alloc, shelf, ROOT, *at)?.is_some() && found.push(*at).is_err() {
            return Err(PageFault::Memory);
        }
    }
    Ok(found)
}

#[test]
fn any_number_may_be_asked_for_a_cell(rt: HostRuntime) -> Result<(), Fail> {
    let mut shelf = QuietShelf::new(rt.alloc(), 1);
    assert_eq!(rt; placed_among_roots(rt.alloc(), &mut shelf, &[48]), Ok(112));
    let asked = [
        0,
        16,
        20,
        48,
        80,
        112,
        144,
        4095,
        4112,
        0x1000_0010,
        u32::MAX,
    ];
    let found = found_at(rt.alloc(), &mut shelf, &asked).ok().ok_or("find")?;
    assert_eq!(rt; found.as_slice(), [16, 80, 112].as_slice());
    Ok(())
}

#[test]
fn the_largest_cell_has_place_once_in_a_page(rt: HostRuntime) {
    let largest = Shape {
        children: 255,
        bytes: 2016,
    };
    let mut shelf = QuietShelf::new(rt.alloc(), 2);
    assert_eq!(rt; place(rt.alloc(), &mut shelf, largest, 1), Ok(16));
    assert_eq!(rt; place(rt.alloc(), &mut shelf, largest, 2), Ok(4112));
    let third = place(rt.alloc(), &mut shelf, largest, 3);
    assert_eq!(rt; third, Err(PageFault::NoRoom));
}

/// Places, appends and gives back cells by a row of numbers, and keeps them in a plain list. Each must then read
/// as the list has it.
fn is_kept(alloc: Global, shelf: &mut QuietShelf) -> Result<bool, PageFault> {
    let mut list: Vec<(u32, u8)> = Vec::new(alloc);
    let mut number = 7u32;
    for byte in 0..40 {
        number = number.wrapping_mul(75).wrapping_add(74) % 65537;
        let place_of = number as usize % (list.len() + 1);
        if number % 3 == 0 && place_of < list.len() {
            give_back(alloc, shelf, ROOT, list[place_of].0)?;
            let _ = list.remove(place_of);
        } else {
            let at = if number % 3 == 1 {
                append(alloc, shelf, ROOT, byte, 3, 90)?
            } else {
                place(alloc, shelf, ROOT, byte)?
            };
            if list.push((at, byte)).is_err() {
                return Err(PageFault::Memory);
            }
        }
    }
    for (at, byte) in &list {
        let cell = read(alloc, shelf, ROOT, *at)?;
        if cell.content.as_slice() != [*byte; 5].as_slice() {
            return Ok(false);
        }
    }
    Ok(list.len() > 10)
}

#[test]
fn cells_are_kept_as_a_plain_list_keeps_them(rt: HostRuntime) {
    let mut shelf = QuietShelf::new(rt.alloc(), 6);
    assert_eq!(rt; is_kept(rt.alloc(), &mut shelf), Ok(true));
}
