// One cell read, and changed where it stands.
ghost use Rattle.std.specs.Prelude.{◌≡◌, ◌≢◌, List as ListOf, None, Some, take, IfOk, OnOk, OnErr, IsErrOf, IsTrue, ⊤};
ghost use Rattle.hal_base.specs.ShelfCalls.{SameShelf, OnlyReads};
ghost use Rattle.segment_blocks.specs.declared.tile.Tile.{Tile as TileOf};
ghost use Rattle.segment_blocks.specs.Tiling.{IsTiling};
ghost use Rattle.segment_blocks.specs.TilesOf.{cell_among};
ghost use Rattle.free_space.specs.Changes.{changed, Rewrites, Rewritten};
ghost use Rattle.free_space.specs.Store.{StandsFor, Relays, HoldsAt, StandsAt, Writes};

use crate::CellStore;
use crate::address::{has_letter, offset_of, page_of};
use crate::change::Change;
use hal_base::{BLOCK, Memory, PageFault, Shape, Shelf};
use segment_blocks::{Cell, find_at, others_stand_around, read_at, write_cell};
use std::alloc::Global;

/// Changes the cell at an offset of a page. Where none stands there, or the change would give it another shape, it is want
/// of memory: then the page was read otherwise than before.
fn rewrite_in(
    alloc: Global,
    shapes: &[Shape],
    block: &mut [u8; BLOCK],
    offset: u16,
    change: Change,
) -> Result<(), Memory>
    ensures tiled { OnOk result ((tiles : ListOf TileOf) → IsTiling shapes.now block.old tiles → cell_among offset tiles ≢ None
        → Rewritten shapes.now tiles block.new offset (changed change)) }
    ensures head { take 16 block.new ≡ take 16 block.old }
{
    others_stand_around();
    let Some(cell) = read_at(alloc, shapes, block, offset)? else {
        return Err(Memory);
    };
    if !change.suits(&cell) {
        return Err(Memory);
    }
    let shape = shapes[usize::from(cell.code) - 1];
    let new = change.applied(alloc, &cell)?;
    write_cell(shape, block, offset, &new);
    Ok(())
}

impl CellStore {
    /// What stands at an address, whatever number that is.
    pub fn find<H: Shelf>(&self, shelf: &mut H, at: u32) -> Result<Option<Cell>, PageFault>
        requires live { IsTrue (H.seen shelf.old).live }
        requires stands { StandsFor self.now (H.seen shelf.old) }
        ensures found { IfOk result (StandsAt self.now (H.seen shelf.old) at) }
        ensures room { result ≡ Err PageFault.NoRoom → ⊥ }
        ensures stands { StandsFor self.now (H.seen shelf.new) }
        ensures leaves { OnlyReads 1 (H.steady shelf.old shelf.new) (IsErrOf result PageFault.Failed) (H.seen shelf.old) (H.seen shelf.new) }
    {
        if !has_letter(self.set, at) {
            return Ok(None);
        }
        let page = page_of(at);
        if usize::from(page) >= self.spaces.pages.len() {
            return Ok(None);
        }
        let mut block = [0; BLOCK];
        self.fetch(shelf, page, &mut block)?;
        match find_at(self.alloc, self.shapes.as_slice(), &block, offset_of(at)) {
            Ok(found) => Ok(found),
            Err(Memory) => Err(PageFault::Memory),
        }
    }

    /// The cell at an address.
    pub fn cell<H: Shelf>(&self, shelf: &mut H, at: u32) -> Result<Cell, PageFault>
        requires live { IsTrue (H.seen shelf.old).live }
        requires stands { StandsFor self.now (H.seen shelf.old) }
        requires cell { HoldsAt self.now (H.seen shelf.old) at (λ _. ⊤) }
        ensures cell { IfOk result (λ cell. StandsAt self.now (H.seen shelf.old) at (Some cell)) }
        ensures room { result ≡ Err PageFault.NoRoom → ⊥ }
        ensures stands { StandsFor self.now (H.seen shelf.new) }
        ensures leaves { OnlyReads 1 (H.steady shelf.old shelf.new) (IsErrOf result PageFault.Failed) (H.seen shelf.old) (H.seen shelf.new) }
    {
        let mut block = [0; BLOCK];
        self.fetch(shelf, page_of(at), &mut block)?;
        match read_at(self.alloc, self.shapes.as_slice(), &block, offset_of(at)) {
            Ok(Some(cell)) => Ok(cell),
            _ => Err(PageFault::Memory),
        }
    }

    /// Changes the cell at an address, if one stands there and the change leaves it its shape.
    pub(crate) fn rewrite<H: Shelf>(
        &self,
        shelf: &mut H,
        at: u32,
        change: Change,
    ) -> Result<(), PageFault>
        requires live { IsTrue (H.seen shelf.old).live }
        requires stands { StandsFor self.now (H.seen shelf.old) }
        requires cell { HoldsAt self.now (H.seen shelf.old) at (λ _. ⊤) }
        ensures changed { OnOk result (Relays self.now (H.seen shelf.old) (H.seen shelf.new) (Rewrites self.now.set at (changed change))) }
        ensures unchanged { OnErr result (SameShelf (H.seen shelf.old) (H.seen shelf.new)) }
        ensures room { result ≡ Err PageFault.NoRoom → ⊥ }
        ensures stands { StandsFor self.now (H.seen shelf.new) }
        ensures leaves { Writes 1 self.now.set (H.steady shelf.old shelf.new) (IsErrOf result PageFault.Failed) (H.seen shelf.old) (H.seen shelf.new) }
    {
        let page = page_of(at);
        let mut block = [0; BLOCK];
        self.fetch(shelf, page, &mut block)?;
        let shapes = self.shapes.as_slice();
        let Ok(()) = rewrite_in(self.alloc, shapes, &mut block, offset_of(at), change) else {
            return Err(PageFault::Memory);
        };
        self.stage(shelf, page, &block)
    }
}
