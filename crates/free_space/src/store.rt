// The store of one data set's cells: what it keeps in memory, and one page read and staged.
ghost use Rattle.std.specs.Prelude.{◌≡◌, ℕ, ◌<◌, List as ListOf, length, slice_get, Some, IfOk, OnOk, OnErr, IsErrOf, IsTrue};
ghost use Rattle.hal_base.specs.ShelfCalls.{SameShelf, OnlyReads, OnlyChanges};
ghost use Rattle.segment_blocks.specs.Tiling.{IsTiling};
ghost use Rattle.free_space.specs.Store.{StandsFor, IsPage, HasPut, SameFront};

use crate::spaces::Spaces;
use hal_base::{BLOCK, List, PageFault, SetId, Shape, Shelf};
use segment_blocks::{Tile, parse_block};
use std::alloc::Global;

/// The cells of one data set, by their addresses. Its pages stand on a shelf, which is passed at each call; the
/// store keeps a few numbers of each page, so that most calls read one page at most.
#[derive(Debug, Drop)]
pub struct CellStore {
    pub(crate) alloc: Global,
    pub(crate) set: SetId,
    pub(crate) shapes: List<Shape>,
    pub(crate) spaces: Spaces,
}

impl CellStore {
    /// The bytes of a page.
    pub(crate) fn fetch<H: Shelf>(
        &self,
        shelf: &mut H,
        page: u16,
        block: &mut [u8; BLOCK],
    ) -> Result<(), PageFault>
        requires live { IsTrue (H.seen shelf.old).live }
        requires stands { StandsFor self.now (H.seen shelf.old) }
        ensures page { OnOk result (IsPage self.now.set page block.new (H.seen shelf.old)) }
        ensures below { OnOk result (page < length self.now.spaces.pages.items) }
        ensures stands { StandsFor self.now (H.seen shelf.new) }
        ensures room { result ≡ Err PageFault.NoRoom → ⊥ }
        ensures leaves { OnlyReads 1 (H.steady shelf.old shelf.new) (IsErrOf result PageFault.Failed) (H.seen shelf.old) (H.seen shelf.new) }
    {
        if usize::from(page) >= self.spaces.pages.len() {
            return Err(PageFault::Memory);
        }
        match shelf.fetch_page(self.set, page, block) {
            Ok(()) => Ok(()),
            Err(_) => Err(PageFault::Failed),
        }
    }

    /// The tiles of a page, and its bytes.
    pub(crate) fn read_page<H: Shelf>(
        &self,
        shelf: &mut H,
        page: u16,
        block: &mut [u8; BLOCK],
    ) -> Result<List<Tile>, PageFault>
        requires live { IsTrue (H.seen shelf.old).live }
        requires stands { StandsFor self.now (H.seen shelf.old) }
        ensures tiling { IfOk result (IsTiling self.now.shapes block.new) }
        ensures page { OnOk result (IsPage self.now.set page block.new (H.seen shelf.old)) }
        ensures below { OnOk result (page < length self.now.spaces.pages.items) }
        ensures stands { StandsFor self.now (H.seen shelf.new) }
        ensures room { result ≡ Err PageFault.NoRoom → ⊥ }
        ensures leaves { OnlyReads 1 (H.steady shelf.old shelf.new) (IsErrOf result PageFault.Failed) (H.seen shelf.old) (H.seen shelf.new) }
    {
        self.fetch(shelf, page, block)?;
        match parse_block(self.alloc, self.shapes.as_slice(), block) {
            Ok(tiles) => Ok(tiles),
            Err(_) => Err(PageFault::Memory),
        }
    }

    /// Puts a page in the place of one that was read, whose head it has.
    pub(crate) fn stage<H: Shelf>(
        &self,
        shelf: &mut H,
        page: u16,
        block: &[u8; BLOCK],
    ) -> Result<(), PageFault>
        requires live { IsTrue (H.seen shelf.old).live }
        requires below { page < length ((H.seen shelf.old).places self.now.set) }
        requires head { (pages : ListOf (ListOf ℕ)) (old : ListOf ℕ) → (H.seen shelf.old).pages self.now.set ≡ Some pages → slice_get pages page
            ≡ Some old → SameFront old block.now }
        ensures page { OnOk result (HasPut self.now.set page block.now (H.seen shelf.old) (H.seen shelf.new)) }
        ensures unchanged { OnErr result (SameShelf (H.seen shelf.old) (H.seen shelf.new)) }
        ensures room { result ≡ Err PageFault.NoRoom → ⊥ }
        ensures leaves { OnlyChanges self.now.set (H.steady shelf.old shelf.new) (IsErrOf result PageFault.Failed) (H.seen shelf.old) (H.seen shelf.new) }
        ensures fetches { (H.seen shelf.new).fetches ≡ (H.seen shelf.old).fetches }
    {
        match shelf.stage_page(self.set, page, block) {
            Ok(()) => Ok(()),
            Err(fault) => Err(fault.into()),
        }
    }
}
