ghost use Rattle.std.specs.Prelude.{◌≡◌, ℕ, [], ◌≤◌, ◌<◌, ◌+◌, ◌-◌, ◌*◌, ◌%◌, ◌^◌, ◌∷◌, ◌++◌, List, length, replicate};
ghost use Rattle.std.specs.List.{flat_map, AllByRecursion};
ghost use Rattle.std.specs.Int.{w32, to_be_bytes};
ghost use Rattle.hal_base.specs.declared.place.Shape.{Shape as ShapeOf};
ghost use Rattle.segment_blocks.specs.declared.tile.Tile.{Tile};
ghost use Rattle.segment_blocks.specs.Tiling.{cell_length, spelling, spelled_head, Fits, AreTiles, IsTiling, StandAround, Writes};

use crate::Cell;
use crate::size::length_of;
use hal_base::{Ilk, Shape, put16, put32};

pub(crate) fn put(block: &mut [u8], at: usize, bytes: &[u8])
    requires { at + length bytes.now ≤ length block.old }
    ensures { Writes block.old block.new at bytes.now }
{
    block[at..at + bytes.len()].copy_from_slice(bytes);
}

fn put_zeros(block: &mut [u8], at: usize, count: usize)
    requires { at + count ≤ length block.old }
    ensures { Writes block.old block.new at (replicate count 0) }
{
    block[at..at + count].fill(0);
}

fn put_addresses(block: &mut [u8], at: usize, addresses: &[u32])
    requires { at + 4 * length addresses.now ≤ length block.old }
    ensures written { Writes block.old block.new at (flat_map (to_be_bytes w32) addresses.now) }
    ensures fits { AllByRecursion (λ address. address < 2 ^ 32) addresses.now }
{
    for (i, address) in addresses.iter().enumerate() {
        put32(block, at + 4 * i, *address);
    }
}

/// What stands in front of the addresses of children.
fn head_of(cell: &Cell, len: u16) -> [u8; 16]
    ensures head { result ≡ spelled_head cell.now len }
    ensures code { cell.now.code < 2 ^ 8 }
    ensures addr { cell.now.name.addr < 2 ^ 32 }
    ensures part { cell.now.name.part < 2 ^ 16 }
    ensures number { cell.now.name.number < 2 ^ 16 }
    ensures twin { cell.now.twin < 2 ^ 32 }
{
    let Ilk { addr, part, number } = cell.name;
    let code = cell.code;
    let twin = cell.twin;
    let mut head = [0; 16];
    head[0] = if cell.copied { 2 } else { 1 };
    head[1] = code;
    put16(&mut head, 2, len);
    put32(&mut head, 4, addr);
    put16(&mut head, 8, part);
    put16(&mut head, 10, number);
    put32(&mut head, 12, twin);
    head
}

/// Writes the cell of a segment whose type has this shape, and no other byte.
pub fn write_cell(shape: Shape, block: &mut [u8; 4096], at: u16, cell: &Cell)
    requires body { 16 ≤ at }
    requires room { at + cell_length shape ≤ 4096 }
    requires children { length cell.now.children ≡ shape.children }
    requires content { length cell.now.content ≡ shape.bytes }
    ensures written { Writes block.old block.new at (spelling (Tile.Seg at cell.now)) }
    // Where it and the other tiles are a tiling, the block has this tiling.
    ensures tiled { (shapes : List ShapeOf) (before after : List Tile) → AreTiles shapes (before ++ Tile.Seg at cell.now ∷ after) →
        StandAround block.old at (at + cell_length shape) before after → IsTiling shapes block.new (before ++ Tile.Seg at cell.now ∷ after) }
    // It joins the tiles that stand before it, whatever stood up to `end`.
    ensures joins { (end : ℕ) (before after : List Tile) → at + cell_length shape ≤ end → StandAround block.old at end before after →
        StandAround block.new (at + cell_length shape) end (before ++ Tile.Seg at cell.now ∷ []) after }
    // Its numbers have the bytes that they are spelled in.
    ensures fits { Fits cell.now }
{
    let at = usize::from(at);
    let len = length_of(shape);
    let content_at = at + 16 + 4 * usize::from(shape.children);
    let padding_at = content_at + usize::from(shape.bytes);
    put(block, at, &head_of(cell, len as u16));
    put_addresses(block, at + 16, cell.children.as_slice());
    put(block, content_at, cell.content.as_slice());
    put_zeros(block, padding_at, at + len - padding_at);
}

/// Writes a hole of this length, its head and zeros, and no other byte.
pub fn write_hole(block: &mut [u8; 4096], at: u16, len: u16)
    requires body { 16 ≤ at }
    requires room { at + len ≤ 4096 }
    requires least { 4 ≤ len }
    requires whole { len % 4 ≡ 0 }
    ensures written { Writes block.old block.new at (spelling (Tile.Hole at len)) }
    // Where it and the other tiles are a tiling, the block has this tiling.
    ensures tiled { (shapes : List ShapeOf) (before after : List Tile) → AreTiles shapes (before ++ Tile.Hole at len ∷ after) →
        StandAround block.old at (at + len) before after → IsTiling shapes block.new (before ++ Tile.Hole at len ∷ after) }
    // It joins the tiles that stand before it, whatever stood up to `end`.
    ensures joins { (end : ℕ) (before after : List Tile) → at + len ≤ end → StandAround block.old at end before after →
        StandAround block.new (at + len) end (before ++ Tile.Hole at len ∷ []) after }
{
    let at = usize::from(at);
    let [high, low] = len.to_be_bytes();
    put(block, at, &[0, 0, high, low]);
    put_zeros(block, at + 4, usize::from(len) - 4);
}
