// Sides over a shelf in memory that tells nothing. Each stays open from the first call of a test to the last.
use crate::OpenSide;
use hal_base::{Bytes, Ilk, Memory, PageFault, SetId, Shape};
use memory_shelf::QuietShelf;
use std::alloc::Global;
use std::test::Fail;

type Side = OpenSide<QuietShelf>;

/// R, below it C and U, and below C G. R and C are of the letter A, G is of B, and U of C.
const LETTERS: [u8; 4] = *b"AABC";

const SHAPES: [Shape; 4] = [
    Shape {
        children: 2,
        bytes: 5,
    },
    Shape {
        children: 1,
        bytes: 4,
    },
    Shape {
        children: 0,
        bytes: 2,
    },
    Shape {
        children: 0,
        bytes: 1,
    },
];

const R: u8 = 1;

const C: u8 = 2;

const G: u8 = 3;

const U: u8 = 4;

/// The first address of the letters B and C.
const B1: u32 = 0x1000_0010;

const C1: u32 = 0x2000_0010;

/// A side without cells, whose first letter is A or M, over so many blocks.
fn new_side(alloc: Global, m: bool, blocks: u8) -> Option<Side> {
    let shelf = QuietShelf::new(alloc, u32::from(blocks));
    let first = SetId {
        part: 1,
        number: 1,
        letter: if m { b'M' } else { b'A' },
    };
    OpenSide::new(alloc, shelf, first, &LETTERS, &SHAPES).ok()
}

fn push<T: Drop>(list: &mut Vec<T>, item: T) -> Result<(), Memory> {
    list.push(item)?;
    Ok(())
}

/// A record of three levels by hand: two C below R, two G below the first of them, and a U below R. It answers where
/// the root stands.
fn new_record(side: &mut Side, byte: u8) -> Result<u32, PageFault> {
    let root = side.place(R, byte)?;
    let first = side.place(C, b'c')?;
    let second = side.place(C, b'd')?;
    side.set_child(root, 0, first)?;
    side.set_twin(first, second)?;
    let one = side.place(G, b'g')?;
    let other = side.place(G, b'h')?;
    side.set_child(first, 0, one)?;
    side.set_twin(one, other)?;
    let last = side.place(U, b'u')?;
    side.set_child(root, 1, last)?;
    Ok(root)
}

/// What the pointers lead to from a root on, in hierarchic sequence, by the first byte of each content. A root is gone
/// through alone (PHIDAM), or with those behind it (PHDAM).
fn walked(alloc: Global, side: &mut Side, root: u32, alone: bool) -> Result<Vec<u8>, PageFault> {
    let mut bytes = Vec::new(alloc);
    let mut pending = Vec::new(alloc);
    push(&mut pending, root)?;
    for _ in 0..40 {
        let Some(at) = pending.pop() else {
            break;
        };
        let Some(cell) = side.find(at)? else {
            return Err(PageFault::Memory);
        };
        push(
            &mut bytes,
            cell.content.as_slice().first().copied().unwrap_or(0),
        )?;
        if cell.twin != 0 && !(alone && cell.code == R) {
            push(&mut pending, cell.twin)?;
        }
        push_children(&mut pending, cell.children.as_slice())?;
    }
    Ok(bytes)
}

/// The first child of the first child type comes last, and so is gone to first.
fn push_children(pending: &mut Vec<u32>, children: &[u32]) -> Result<(), Memory> {
    for child in children.iter().rev() {
        if *child != 0 {
            push(pending, *child)?;
        }
    }
    Ok(())
}

#[test]
fn a_record_of_three_levels_is_gone_through_by_its_pointers(rt: HostRuntime) -> Result<(), Fail> {
    let mut side = new_side(rt.alloc(), false, 3).ok_or("open")?;
    assert_eq!(rt; new_record(&mut side, b'r'), Ok(16));
    assert_eq!(rt; new_record(&mut side, b's'), Ok(96));
    assert_eq!(rt; side.set_twin(16, 96), Ok(()));
    let record = walked(rt.alloc(), &mut side, 16, true).ok().ok_or("walk")?;
    assert_eq!(rt; record.as_slice(), b"rcghdu".as_slice());
    let chain = walked(rt.alloc(), &mut side, 16, false).ok().ok_or("walk")?;
    assert_eq!(rt; chain.as_slice(), b"rcghduscghdu".as_slice());
    Ok(())
}

#[test]
fn the_roots_of_an_anchor_are_a_chain_of_twins(rt: HostRuntime) -> Result<(), Fail> {
    let mut side = new_side(rt.alloc(), true, 3).ok_or("open")?;
    assert_eq!(rt; new_record(&mut side, b'r'), Ok(16));
    assert_eq!(rt; new_record(&mut side, b's'), Ok(96));
    assert_eq!(rt; side.set_twin(16, 96), Ok(()));
    let chain = walked(rt.alloc(), &mut side, 16, false).ok().ok_or("walk")?;
    assert_eq!(rt; chain.as_slice(), b"rcghduscghdu".as_slice());
    Ok(())
}

/// The addresses of all cells: letter by letter, page by page.
fn listed(alloc: Global, side: &mut Side) -> Result<Vec<u32>, PageFault> {
    let mut addresses = Vec::new(alloc);
    for place in 0..10 {
        for page in 0..side.pages(place).min(65_536) {
            let cells = side.page_cells(place, page as u16)?;
            for placed in cells.as_slice() {
                push(&mut addresses, placed.at)?;
            }
        }
    }
    Ok(addresses)
}

#[test]
fn cells_go_to_the_letters_of_their_types_and_are_listed_by_address(
    rt: HostRuntime,
) -> Result<(), Fail> {
    let mut side = new_side(rt.alloc(), false, 3).ok_or("open")?;
    assert_eq!(rt; new_record(&mut side, b'r'), Ok(16));
    let all = listed(rt.alloc(), &mut side).ok().ok_or("list")?;
    assert_eq!(rt; all.as_slice(), [16, 48, 72, B1, B1 + 20, C1].as_slice());
    assert_eq!(rt; side.give_back(48), Ok(()));
    assert_eq!(rt; side.append(C, b'e'), Ok(96));
    let fewer = listed(rt.alloc(), &mut side).ok().ok_or("list")?;
    assert_eq!(rt; fewer.as_slice(), [16, 72, 96, B1, B1 + 20, C1].as_slice());
    assert_eq!(rt; side.place(C, b'f'), Ok(48));
    Ok(())
}

/// The addresses, of some, at which a cell is found.
fn found_at(alloc: Global, side: &mut Side, asked: &[u32]) -> Result<Vec<u32>, PageFault> {
    let mut found = Vec::new(alloc);
    for at in asked {
        if side.find(*at)?.is_some() {
            push(&mut found, *at)?;
        }
    }
    Ok(found)
}

#[test]
fn any_number_may_be_asked_of_a_side(rt: HostRuntime) -> Result<(), Fail> {
    let mut side = new_side(rt.alloc(), true, 3).ok_or("open")?;
    assert_eq!(rt; new_record(&mut side, b'r'), Ok(16));
    let asked = [
        0,
        16,
        20,
        4112,
        B1,
        C1,
        0x3000_0010,
        0xa000_0010,
        0xc000_0010,
        u32::MAX,
    ];
    let found = found_at(rt.alloc(), &mut side, &asked).ok().ok_or("find")?;
    assert_eq!(rt; found.as_slice(), [16, B1, C1].as_slice());
    Ok(())
}

#[test]
fn one_cell_is_changed_and_keeps_its_pointers(rt: HostRuntime) -> Result<(), Fail> {
    let mut side = new_side(rt.alloc(), false, 3).ok_or("open")?;
    assert_eq!(rt; new_record(&mut side, b'r'), Ok(16));
    let content = Bytes::from_slice(rt.alloc(), b"01xx")?;
    assert_eq!(rt; side.set_content(48, content), Ok(()));
    let name = Ilk {
        addr: 48,
        part: 2,
        number: 3,
    };
    assert_eq!(rt; side.set_name(48, name), Ok(()));
    assert_eq!(rt; side.mark_copied(48), Ok(()));
    let cell = side.find(48).ok().ok_or("find")?.ok_or("cell")?;
    assert_eq!(rt; (cell.copied, cell.code, cell.twin), (true, C, 72));
    assert_eq!(rt; cell.name, name);
    assert_eq!(rt; cell.children.as_slice(), [B1].as_slice());
    assert_eq!(rt; cell.content.as_slice(), b"01xx".as_slice());
    let root = side.find(16).ok().ok_or("find")?.ok_or("cell")?;
    assert_eq!(rt; (root.copied, root.twin), (false, 0));
    assert_eq!(rt; root.children.as_slice(), [48, C1].as_slice());
    Ok(())
}

#[test]
fn a_side_stays_open_where_no_block_is_free(rt: HostRuntime) -> Result<(), Fail> {
    let mut side = new_side(rt.alloc(), false, 2).ok_or("open")?;
    assert_eq!(rt; new_record(&mut side, b'r'), Err(PageFault::NoRoom));
    assert_eq!(rt; side.append(U, b'u'), Err(PageFault::NoRoom));
    assert_eq!(rt; side.place(G, b'i'), Ok(B1 + 40));
    let record = walked(rt.alloc(), &mut side, 16, true).ok().ok_or("walk")?;
    assert_eq!(rt; record.as_slice(), b"rcghd".as_slice());
    Ok(())
}
