ghost use Rattle.std.specs.Prelude.{◌≡◌, ◌≤◌, ◌*◌, ℕ, List as ListOf, length, IfOk, MatchResult};
ghost use Rattle.segment_blocks.specs.declared.tile.Tile.{Tile as TileOf};
ghost use Rattle.segment_blocks.specs.Tiling.{cell_length, is_hole, IsTiling, StopsAt};
ghost use Rattle.segment_blocks.specs.Reading.{addresses_in, cell_in, BeginsWith};

use crate::head::{Head, next_head};
use crate::{BlockFault, Cell, Tile};
use hal_base::{Bytes, Ilk, List, Memory, Shape, get16, get32};
use std::alloc::Global;

fn read_addresses(alloc: Global, count: u8, bytes: &[u8]) -> Result<List<u32>, Memory>
    requires { 4 * count ≤ length bytes.now }
    ensures { IfOk result (λ addresses. addresses ≡ addresses_in count bytes.now) }
{
    let mut addresses = List::new(alloc);
    for i in 0..usize::from(count) {
        addresses.push(get32(bytes, 4 * i))?;
    }
    Ok(addresses)
}

pub(crate) fn read_cell(alloc: Global, shape: Shape, bytes: &[u8]) -> Result<Cell, Memory>
    requires { cell_length shape ≤ length bytes.now }
    ensures { IfOk result (λ cell. cell ≡ cell_in shape bytes.now) }
{
    let content = 16 + 4 * usize::from(shape.children);
    Ok(Cell {
        copied: bytes[0] == 2,
        code: bytes[1],
        name: Ilk {
            addr: get32(bytes, 4),
            part: get16(bytes, 8),
            number: get16(bytes, 10),
        },
        twin: get32(bytes, 12),
        children: read_addresses(alloc, shape.children, &bytes[16..])?,
        content: Bytes::from_slice(alloc, &bytes[content..content + usize::from(shape.bytes)])?,
    })
}

/// The tile at the front of the bytes, which stand at `at` in their block.
fn next_tile(
    alloc: Global,
    shapes: &[Shape],
    bytes: &[u8],
    at: u16,
    after_hole: bool,
) -> Result<Tile, BlockFault>
    requires some { 4 ≤ length bytes.now }
    requires few { length bytes.now ≤ 4096 }
    ensures found { IfOk result (BeginsWith shapes.now at after_hole bytes.now) }
    ensures place { (offset : ℕ) → result ≡ Err (BlockFault.BadTile offset) → offset ≡ at }
    ensures none { (offset : ℕ) → result ≡ Err (BlockFault.BadTile offset) →
        (tile : TileOf) → BeginsWith shapes.now at after_hole bytes.now tile → ⊥ }
{
    match next_head(shapes, bytes, after_hole) {
        None => Err(BlockFault::BadTile { offset: at }),
        Some(Head::Hole) => {
            let len = get16(bytes, 2);
            Ok(Tile::Hole { at, len })
        }
        Some(Head::Seg(shape)) => {
            let cell = read_cell(alloc, shape, bytes)?;
            Ok(Tile::Seg { at, cell })
        }
    }
}

impl Tile {
    fn is_hole(&self) -> bool
        ensures { result ≡ is_hole self.now }
    {
        matches!(self, Tile::Hole { .. })
    }
}

/// One tile after the other, each behind the one before it.
fn all_tiles(alloc: Global, shapes: &[Shape], block: &[u8]) -> Result<List<Tile>, BlockFault>
    requires { length block.now ≡ 4096 }
    ensures found { IfOk result (IsTiling shapes.now block.now) }
    ensures bad { (offset : ℕ) → result ≡ Err (BlockFault.BadTile offset) → StopsAt shapes.now block.now offset }
{
    let mut tiles = List::new(alloc);
    let mut at = 16;
    let mut after_hole = false;
    while at < block.len() {
        let tile = next_tile(alloc, shapes, &block[at..], at as u16, after_hole)?;
        at += usize::from(get16(block, at + 2));
        after_hole = tile.is_hole();
        tiles.push(tile)?;
    }
    Ok(tiles)
}

/// The tiles of a block that holds cells of types of these shapes, the shape of code 1 first. The header isn't
/// looked at. The work is bounded by the block's length, whatever its bytes.
pub fn parse_block(
    alloc: Global,
    shapes: &[Shape],
    block: &[u8; 4096],
) -> Result<List<Tile>, BlockFault>
    // What is found is a tiling of the body.
    ensures found { IfOk result (IsTiling shapes.now block.now) }
    // A body that is tiled gives its tiles, unless memory runs out.
    ensures tiled { (tiles : ListOf TileOf) → IsTiling shapes.now block.now tiles →
        MatchResult result (λ found. found ≡ tiles) (λ fault. fault ≡ BlockFault.Memory) }
    // A bad tile is at the first offset at which none begins.
    ensures bad { (offset : ℕ) → result ≡ Err (BlockFault.BadTile offset) → StopsAt shapes.now block.now offset }
{
    all_tiles(alloc, shapes, block)
}
