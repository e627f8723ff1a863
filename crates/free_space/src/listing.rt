// The cells of a data set, page by page in the order of their addresses.
ghost use Rattle.std.specs.Prelude.{◌≡◌, ℕ, ◌<◌, length, slice_get, Some, IfOk, IsErrOf, IsTrue};
ghost use Rattle.hal_base.specs.ShelfCalls.{OnlyReads};
ghost use Rattle.segment_blocks.specs.declared.tile.Cell.{Cell as CellOf};
ghost use Rattle.segment_blocks.specs.declared.tile.Tile.{Tile as TileOf};
ghost use Rattle.free_space.specs.Listing.{placed_among, ListsPage};
ghost use Rattle.free_space.specs.Store.{StandsFor};

use crate::CellStore;
use crate::address::address_of;
use crate::change::copy_cell;
use hal_base::{BLOCK, List, Memory, PageFault, SetId, Shelf};
use segment_blocks::{Cell, Tile};
use std::alloc::Global;

/// A cell, and the address at which it stands.
#[derive(Debug, Drop)]
pub struct PlacedCell {
    pub at: u32,
    pub cell: Cell,
}

/// The cells among the tiles of a page.
fn placed_among(
    alloc: Global,
    set: SetId,
    page: u16,
    tiles: &[Tile],
) -> Result<List<PlacedCell>, Memory>
    requires { (k offset : ℕ) (cell : CellOf) → slice_get tiles.now k ≡ Some (TileOf.Seg offset cell) → offset < 4096 }
    ensures { IfOk result (λ list. list ≡ placed_among set page tiles.now) }
{
    let mut list = List::new(alloc);
    for tile in tiles {
        if let Tile::Seg { at, cell } = tile {
            let at = address_of(set, page, *at);
            let cell = copy_cell(alloc, cell)?;
            list.push(PlacedCell { at, cell })?;
        }
    }
    Ok(list)
}

impl CellStore {
    /// The cells of a page, each with its address, in the order of addresses. To go through a data set, go through its
    /// pages.
    pub fn page_cells<H: Shelf>(
        &self,
        shelf: &mut H,
        page: u16,
    ) -> Result<List<PlacedCell>, PageFault>
        requires live { IsTrue (H.seen shelf.old).live }
        requires stands { StandsFor self.now (H.seen shelf.old) }
        requires page { page < length ((H.seen shelf.old).places self.now.set) }
        ensures cells { IfOk result (ListsPage self.now.set self.now.shapes (H.seen shelf.old) page) }
        ensures room { result ≡ Err PageFault.NoRoom → ⊥ }
        ensures stands { StandsFor self.now (H.seen shelf.new) }
        ensures leaves { OnlyReads 1 (H.steady shelf.old shelf.new) (IsErrOf result PageFault.Failed) (H.seen shelf.old) (H.seen shelf.new) }
    {
        let mut block = [0; BLOCK];
        let tiles = self.read_page(shelf, page, &mut block)?;
        match placed_among(self.alloc, self.set, page, tiles.as_slice()) {
            Ok(list) => Ok(list),
            Err(Memory) => Err(PageFault::Memory),
        }
    }
}
