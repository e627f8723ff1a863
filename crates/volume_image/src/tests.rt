//! Control rows and heads that are laid out by hand, lawful ones and others that are broken in one way.
use crate::{ROW, is_free, is_live, read_row, row_of};
use hal_base::{BLOCK, Cursor, Memory, PartState, SetId, empty_page};
use hal_schema::{Schema, first_schema};
use std::alloc::Global;
use std::test::Fail;

/// A row that begins with these bytes, with zeros behind.
fn laid_out(front: &[u8]) -> [u8; ROW] {
    let mut row = [0; ROW];
    for (to, from) in row.iter_mut().zip(front) {
        *to = *from;
    }
    row
}

fn number_read(alloc: Global, schema: &Schema, front: &[u8]) -> Result<Option<u16>, Memory> {
    let row = laid_out(front);
    Ok(read_row(alloc, schema, 0, &row)?.map(|state| state.number))
}

#[test]
fn rows_are_read_where_they_are_lawful(rt: HostRuntime) -> Result<(), Fail> {
    let schema = first_schema(rt.alloc())?;
    for (front, wanted) in [
        (b"\0\x01\0\x01AI\0\0".as_slice(), Some(1)),
        (b"\0\x01\xff\xffMI\0\0".as_slice(), Some(65535)),
        (b"\0\x01\0\x07MP\x01\x03100".as_slice(), Some(7)),
        (b"\0\x01\0\x07MC\0\0".as_slice(), Some(7)),
        (b"\0\x02\0\x01AI\0\0".as_slice(), None),
        (b"\0\x01\0\0AI\0\0".as_slice(), None),
        (b"\0\x01\xff\xffAC\0\0".as_slice(), None),
        (b"\0\x01\0\x01QI\0\0".as_slice(), None),
        (b"\0\x01\0\x01AX\0\0".as_slice(), None),
        (b"\0\x01\0\x01AI\x01\x03100".as_slice(), None),
        (b"\0\x01\0\x01AP\x01\x0210".as_slice(), None),
        (b"\0\x01\0\x01AP\x01\x03~~\x7f".as_slice(), None),
        (b"\0\x01\0\x01AP\x02\x04\0\0\0\x01".as_slice(), None),
        (b"\0\x01\0\x01AP\x03\0".as_slice(), None),
        (b"\0\x01\0\x01AI\0\x01".as_slice(), None),
        (b"\0\x01\0\x01AI\0\0\x01".as_slice(), None),
    ] {
        assert_eq!(rt; number_read(rt.alloc(), &schema, front)?, wanted);
    }
    Ok(())
}

#[test]
fn a_paused_state_is_written(rt: HostRuntime) -> Result<(), Fail> {
    let state = PartState {
        part: 1,
        number: 7,
        side: b'M',
        state: b'P',
        cursor: Cursor::Anchors(258),
    };
    assert_eq!(rt;
        row_of(&state),
        laid_out(b"\0\x01\0\x07MP\x02\x04\0\0\x01\x02")
    );
    Ok(())
}

/// The partition 1 on side A, with the number 5.
fn standing(state: u8) -> PartState {
    PartState {
        part: 1,
        number: 5,
        side: b'A',
        state,
        cursor: Cursor::Front,
    }
}

/// `F` for a free block, `L` for a live one, `-` for one that is neither.
fn verdict(state: u8, block: &[u8; BLOCK]) -> u8 {
    let states = [standing(state)];
    if is_free(&states, block) {
        return b'F';
    }
    if is_live(1, &states, block) {
        b'L'
    } else {
        b'-'
    }
}

#[test]
fn blocks_are_free_or_live_by_their_heads(rt: HostRuntime) {
    for (kind, letter, part, number, idle, active) in [
        (0, b'Q', 9, 9, b'F', b'F'),
        (1, b'A', 1, 5, b'L', b'L'),
        (2, b'X', 1, 5, b'L', b'L'),
        (1, b'A', 1, 4, b'F', b'F'),
        (1, b'V', 1, 4, b'F', b'F'),
        (1, b'V', 1, 5, b'-', b'-'),
        (1, b'V', 1, 6, b'-', b'L'),
        (2, b'Y', 1, 6, b'-', b'L'),
        (1, b'A', 1, 6, b'-', b'-'),
        (1, b'V', 1, 7, b'-', b'-'),
        (2, b'L', 1, 0, b'L', b'L'),
        (2, b'L', 1, 1, b'-', b'-'),
        (1, b'K', 1, 5, b'-', b'-'),
        (3, b'A', 1, 5, b'-', b'-'),
        (1, b'A', 2, 1, b'-', b'-'),
        (2, b'A', 32768, 0, b'L', b'L'),
        (1, b'A', 32768, 0, b'-', b'-'),
        (2, b'B', 32768, 0, b'-', b'-'),
        (2, b'A', 32769, 0, b'-', b'-'),
    ] {
        let block = empty_page(
            SetId {
                part,
                number,
                letter,
            },
            kind,
            0,
        );
        assert_eq!(rt; verdict(b'I', &block), idle);
        assert_eq!(rt; verdict(b'C', &block), active);
    }
}

#[test]
fn a_head_of_a_live_block_says_no_more(rt: HostRuntime) {
    let set = SetId {
        part: 1,
        number: 5,
        letter: b'A',
    };
    for (at, wanted) in [(8, b'-'), (9, b'-'), (10, b'-'), (15, b'-'), (16, b'L')] {
        let mut block = empty_page(set, 1, 0);
        block[at] = 1;
        assert_eq!(rt; verdict(b'I', &block), wanted);
    }
    let mut block = empty_page(set, 2, 0);
    block[9] = 1;
    assert_eq!(rt; verdict(b'I', &block), b'L');
}
