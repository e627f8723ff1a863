ghost use Rattle.std.specs.Prelude.{◌≡◌, ◌≤◌};
ghost use Rattle.segment_blocks.specs.Tiling.{used_of, cell_length};

use hal_base::Shape;

/// The bytes of a cell of this shape without the padding.
pub(crate) fn used_by(shape: Shape) -> usize
    ensures { result ≡ used_of shape }
{
    16 + 4 * usize::from(shape.children) + usize::from(shape.bytes)
}

pub(crate) fn length_of(shape: Shape) -> usize
    ensures { result ≡ cell_length shape }
{
    used_by(shape).next_multiple_of(4)
}

/// The length of a cell of this shape, its padding among it.
pub fn cell_size(shape: Shape) -> u16
    requires { shape.bytes ≤ 2016 }
    ensures { result ≡ cell_length shape }
{
    length_of(shape) as u16
}
