// How much room a block has, without its tiles.
ghost use Rattle.std.specs.Prelude.{◌≡◌, ℕ, ◌+◌, IfOk, IfErr};
ghost use Rattle.segment_blocks.specs.Tiling.{IsTiling, StopsAt};
ghost use Rattle.segment_blocks.specs.TilesOf.{tiles_of};
ghost use Rattle.segment_blocks.specs.Space.{space_of};

use crate::Space;
use crate::head::next_head;
use hal_base::{Shape, get16};

/// The numbers of a block that holds cells of types of these shapes, or the first offset in it at which no tile begins.
/// It takes no memory: of each cell the length and the padding are looked at.
pub fn measure_block(shapes: &[Shape], block: &[u8; 4096]) -> Result<Space, u16>
    ensures tiled { IfOk result (λ _. IsTiling shapes.now block.now (tiles_of shapes.now block.now)) }
    ensures space { IfOk result (λ space. space ≡ space_of (tiles_of shapes.now block.now)) }
    ensures bad { IfErr result (StopsAt shapes.now block.now) }
{
    let mut space = Space::none();
    let mut at = 16;
    let mut after_hole = false;
    while at < block.len() {
        let Some(head) = next_head(shapes, &block[at..], after_hole) else {
            return Err(at as u16);
        };
        let len = get16(block, at + 2);
        after_hole = head.is_hole();
        space = space.with_head(head, len);
        at += usize::from(len);
    }
    Ok(space)
}
