// What begins at the front of bytes, by its first bytes and its zeros.
ghost use Rattle.std.specs.Prelude.{◌≡◌, ◌≤◌, ◌<◌, ◌+◌, ◌*◌, ◌↔◌, ℕ, List, length, slice_index, IsTrue, IfSome, IfNone};
ghost use Rattle.hal_base.specs.declared.place.Shape.{Shape as ShapeOf};
ghost use Rattle.segment_blocks.specs.declared.tile.Tile.{Tile as TileOf};
ghost use Rattle.segment_blocks.specs.Tiling.{is_hole};
ghost use Rattle.segment_blocks.specs.Reading.{HasZeros, BeginsWithHole, HasShape, BeginsWithCell, BeginsWith, HasHead, tile_of};

use crate::size::{length_of, used_by};
use hal_base::{Shape, get16};

/// What a tile is: a hole, or a cell of a type of this shape.
#[derive(Clone, Copy, Debug, PartialEq, Eq)]
pub(crate) enum Head {
    Hole,
    Seg(Shape),
}

impl Head {
    pub fn is_hole(self) -> bool
        ensures { (at : ℕ) (bytes : List ℕ) → result ≡ is_hole (tile_of self at bytes) }
    {
        match self {
            Head::Hole => true,
            Head::Seg(_) => false,
        }
    }
}

fn has_zeros(bytes: &[u8], start: usize, end: usize) -> bool
    requires { start ≤ end }
    ensures { IsTrue result ↔ HasZeros bytes.now start end }
{
    end <= bytes.len() && bytes[start..end].iter().all(|byte| *byte == 0)
}

/// A hole stands at the front of the bytes.
fn begins_with_hole(bytes: &[u8]) -> bool
    requires { 4 ≤ length bytes.now }
    ensures { IsTrue result ↔ BeginsWithHole bytes.now }
{
    let len = get16(bytes, 2);
    bytes[0] == 0
        && bytes[1] == 0
        && len >= 4
        && len % 4 == 0
        && has_zeros(bytes, 4, usize::from(len))
}

/// The bytes have the length of a cell of this shape, and its padding.
fn has_shape(shape: Shape, bytes: &[u8]) -> bool
    requires { 4 ≤ length bytes.now }
    ensures { IsTrue result ↔ HasShape shape bytes.now }
{
    let end = length_of(shape);
    usize::from(get16(bytes, 2)) == end && has_zeros(bytes, used_by(shape), end)
}

/// The shape of the cell at the front of the bytes.
pub(crate) fn begun_shape(shapes: &[Shape], bytes: &[u8]) -> Option<Shape>
    requires { 4 ≤ length bytes.now }
    ensures found { IfSome result (λ shape. BeginsWithCell shapes.now bytes.now shape) }
    ensures none { IfNone result ((shape : ShapeOf) → BeginsWithCell shapes.now bytes.now shape → ⊥) }
    ensures bytes { (i : ℕ) → slice_index bytes.now i < 256 }
{
    if !matches!(bytes[0], 1 | 2) || bytes[1] == 0 {
        return None;
    }
    let shape = *shapes.get(usize::from(bytes[1]) - 1)?;
    if has_shape(shape, bytes) {
        Some(shape)
    } else {
        None
    }
}

/// What the tile at the front of the bytes is.
pub(crate) fn next_head(shapes: &[Shape], bytes: &[u8], after_hole: bool) -> Option<Head>
    requires some { 4 ≤ length bytes.now }
    requires few { length bytes.now ≤ 4096 }
    ensures found { IfSome result (HasHead shapes.now after_hole bytes.now) }
    ensures none { IfNone result ((at : ℕ) (tile : TileOf) → BeginsWith shapes.now at after_hole bytes.now tile → ⊥) }
    ensures bytes { (i : ℕ) → slice_index bytes.now i < 256 }
{
    if !after_hole && begins_with_hole(bytes) {
        return Some(Head::Hole);
    }
    match begun_shape(shapes, bytes) {
        Some(shape) => Some(Head::Seg(shape)),
        None => None,
    }
}
