use super::*;
use crate::write::put;
use Part::{Byte, Hole, Nothing, Root};
use hal_base::{List, Shape};
use std::process::Abort;
use std::test::Fail;

const HEADER: [u8; 16] = [1, 0x41, 0, 1, 0, 1, 0, 0, 0, 0, 0, 0, 0, 0, 0, 0];

/// Two child types and five bytes of content.
const ROOT: Shape = Shape {
    children: 2,
    bytes: 5,
};

/// The cell of a root with the content `100aa`, at 16 of the first page, in partition 1 with number 1.
const CELL: [u8; 32] = [
    1, 1, 0, 0x20, 0, 0, 0, 0x10, 0, 1, 0, 1, 0, 0, 0, 0, 0, 0, 0, 0, 0, 0, 0, 0, 0x31, 0x30, 0x30,
    0x61, 0x61, 0, 0, 0,
];

/// What stands in a block at an offset.
#[derive(Clone, Copy)]
enum Part {
    Hole(usize, u16),
    Root(usize),
    Byte(usize, u8),
    Nothing,
}

/// Writes as many of the bytes as find room.
fn put_what_fits(block: &mut [u8; 4096], at: usize, bytes: &[u8]) {
    if at <= 4096 {
        let len = bytes.len().min(4096 - at);
        put(block, at, &bytes[..len]);
    }
}

/// A block of these parts, each over the ones before it, and zeros.
fn block_of(parts: &[Part]) -> [u8; 4096] {
    let mut block = [0; 4096];
    put(&mut block, 0, &HEADER);
    for part in parts {
        match part {
            Hole(at, len) => {
                let [high, low] = len.to_be_bytes();
                put_what_fits(&mut block, *at, &[0, 0, high, low]);
            }
            Root(at) => put_what_fits(&mut block, *at, &CELL),
            Byte(at, value) => put_what_fits(&mut block, *at, &[*value]),
            Nothing => {}
        }
    }
    block
}

/// Writes each of the tiles into an empty block.
fn written(rt: &impl Abort, shapes: &[Shape], tiles: &List<Tile>) -> [u8; 4096] {
    let mut block = [0xff; 4096];
    put(&mut block, 0, &HEADER);
    for tile in tiles.as_slice() {
        match tile {
            Tile::Hole { at, len } => {
                assert!(rt; *at >= 16 && *len >= 4 && len % 4 == 0);
                assert!(rt; usize::from(*at) + usize::from(*len) <= 4096);
                write_hole(&mut block, *at, *len);
            }
            Tile::Seg { at, cell } => {
                assert!(rt; *at >= 16 && cell.code >= 1 && usize::from(cell.code) <= shapes.len());
                let shape = shapes[usize::from(cell.code) - 1];
                assert!(rt; shape.bytes <= 2016);
                assert!(rt; usize::from(*at) + usize::from(cell_size(shape)) <= 4096);
                assert!(rt; cell.children.len() == usize::from(shape.children));
                assert!(rt; cell.content.len() == usize::from(shape.bytes));
                write_cell(shape, &mut block, *at, cell);
            }
        }
    }
    block
}

fn place_of(tile: &Tile) -> u16 {
    match tile {
        Tile::Hole { at, .. } | Tile::Seg { at, .. } => *at,
    }
}

fn first_cell(tiles: &List<Tile>) -> Option<(u16, &Cell)> {
    match tiles.as_slice().first()? {
        Tile::Seg { at, cell } => Some((*at, cell)),
        Tile::Hole { .. } => None,
    }
}

#[test]
fn a_segment_and_a_hole_are_read(rt: HostRuntime) -> Result<(), Fail> {
    let mut block = block_of(&[Root(16), Hole(48, 0x0fd0)]);
    let tiles = parse_block(rt.alloc(), &[ROOT], &block)?;
    assert_eq!(rt; tiles.len(), 2);
    let (at, cell) = first_cell(&tiles).ok_or("no segment at 16")?;
    assert_eq!(rt; (at, cell.copied, cell.code), (16, false, 1));
    assert_eq!(rt;
        (cell.name.addr, cell.name.part, cell.name.number),
        (16, 1, 1)
    );
    assert_eq!(rt; cell.twin, 0);
    assert_eq!(rt; cell.children.as_slice(), [0, 0].as_slice());
    assert_eq!(rt; cell.content.as_slice(), b"100aa".as_slice());
    assert!(rt; matches!(tiles.as_slice()[1], Tile::Hole { at: 48, len: 4048 }));
    block[16] = 7;
    let fault = parse_block(rt.alloc(), &[ROOT], &block).err();
    assert_eq!(rt; fault, Some(BlockFault::BadTile { offset: 16 }));
    Ok(())
}

/// Bodies: how many tiles one has, and where the last begins; no tiles, where none begins.
const BODIES: [(&str, [Part; 4], usize, u16); 13] = [
    (
        "one hole",
        [Hole(16, 4080), Nothing, Nothing, Nothing],
        1,
        16,
    ),
    (
        "ends at the end",
        [Hole(16, 4048), Root(4064), Nothing, Nothing],
        2,
        4064,
    ),
    (
        "ends behind it",
        [Hole(16, 4052), Root(4068), Nothing, Nothing],
        0,
        4068,
    ),
    (
        "hole behind it",
        [Hole(16, 4084), Nothing, Nothing, Nothing],
        0,
        16,
    ),
    (
        "another length",
        [Root(16), Byte(19, 36), Hole(52, 4044), Nothing],
        0,
        16,
    ),
    (
        "unknown code",
        [Root(16), Byte(17, 2), Hole(48, 4048), Nothing],
        0,
        16,
    ),
    (
        "no code",
        [Root(16), Byte(17, 0), Hole(48, 4048), Nothing],
        0,
        16,
    ),
    (
        "padding",
        [Root(16), Byte(47, 1), Hole(48, 4048), Nothing],
        0,
        16,
    ),
    (
        "hole with a byte",
        [Root(16), Hole(48, 4048), Byte(4095, 1), Nothing],
        0,
        48,
    ),
    (
        "holes that touch",
        [Hole(16, 8), Hole(24, 4072), Nothing, Nothing],
        0,
        24,
    ),
    (
        "hole of 6",
        [Hole(16, 6), Hole(22, 4074), Nothing, Nothing],
        0,
        16,
    ),
    (
        "copied",
        [Root(16), Byte(16, 2), Hole(48, 4048), Nothing],
        2,
        48,
    ),
    (
        "hole of 4",
        [Root(16), Hole(48, 4), Root(52), Hole(84, 4012)],
        4,
        84,
    ),
];

#[test]
fn bodies_are_tiled_or_stop_at_an_offset(rt: HostRuntime) {
    for (name, parts, count, offset) in BODIES {
        let block = block_of(&parts);
        match parse_block(rt.alloc(), &[ROOT], &block) {
            Err(fault) => {
                assert_eq!(rt; count, 0, "{name}");
                assert_eq!(rt; fault, BlockFault::BadTile { offset }, "{name}");
            }
            Ok(tiles) => {
                assert_eq!(rt; tiles.len(), count, "{name}");
                let last = tiles.as_slice().last().map(place_of);
                assert_eq!(rt; last, Some(offset), "{name}");
                assert!(rt; written(&rt, &[ROOT], &tiles) == block, "{name}");
            }
        }
    }
}

#[test]
fn the_largest_shape_is_read_and_written(rt: HostRuntime) -> Result<(), Fail> {
    let shape = Shape {
        children: 255,
        bytes: 2016,
    };
    assert_eq!(rt; cell_size(shape), 3052);
    let head = [2, 3, 0x0b, 0xec, 1, 2, 3, 4, 5, 6, 7, 8, 9, 10, 11, 12];
    let mut block = block_of(&[Byte(1052, 0x61), Byte(3067, 0x7a), Hole(3068, 1028)]);
    put_what_fits(&mut block, 16, &head);
    put_what_fits(&mut block, 32, &[0x10, 0, 0, 0x14]);
    put_what_fits(&mut block, 1048, &[0x20, 0, 0x10, 0x18]);
    let shapes = [ROOT, ROOT, shape];
    let tiles = parse_block(rt.alloc(), &shapes, &block)?;
    assert_eq!(rt; tiles.len(), 2);
    let (at, cell) = first_cell(&tiles).ok_or("no segment at 16")?;
    assert_eq!(rt; (at, cell.copied, cell.code), (16, true, 3));
    assert_eq!(rt;
        (cell.name.addr, cell.name.part, cell.name.number),
        (0x0102_0304, 0x0506, 0x0708)
    );
    assert_eq!(rt; cell.twin, 0x090a_0b0c);
    assert_eq!(rt; cell.children.as_slice().first(), Some(&0x1000_0014));
    assert_eq!(rt; cell.children.as_slice().last(), Some(&0x2000_1018));
    assert_eq!(rt; cell.content.as_slice().first(), Some(&0x61));
    assert_eq!(rt; cell.content.as_slice().last(), Some(&0x7a));
    assert!(rt; written(&rt, &shapes, &tiles) == block);
    Ok(())
}
