// A page that is added, and a cell that is put into a hole of a page that was read.
ghost use Rattle.std.specs.Prelude.{◌≡◌, ℕ, ◌+◌, ◌<◌, ◌≤◌, ◌∷◌, ◌++◌, [], length, take, drop, slice_get, Some, IfOk, MatchResult, OnOk, OnErr, IsErrOf, IsTrue};
ghost use Rattle.hal_base.specs.ShelfCalls.{SameShelf, Keeps, OnlyChanges};
ghost use Rattle.segment_blocks.specs.Tiling.{shape_of, IsTiling};
ghost use Rattle.free_space.specs.Gaps.{IsGap};
ghost use Rattle.free_space.specs.Placing.{length_of, TakesHole};
ghost use Rattle.free_space.specs.Store.{StandsFor, StaysOpen, IsPage, Relays, GrewBy, IsTyped};

use crate::CellStore;
use crate::address::address_of;
use crate::page::{fill, filled};
use crate::tiles::Gap;
use hal_base::{BLOCK, PageFault, Shape, Shelf};
use segment_blocks::{Cell, Space, Tile, cell_size};

impl CellStore {
    /// The shape of the cell's type.
    pub(crate) fn shape_for(&self, cell: &Cell) -> Shape
        requires { IsTyped self.now.shapes cell.now }
        ensures { result ≡ shape_of cell.now }
    {
        self.shapes.as_slice()[usize::from(cell.code) - 1]
    }

    /// Adds an empty page at the end.
    pub(crate) fn add_page<H: Shelf>(&mut self, shelf: &mut H) -> Result<u16, PageFault>
        requires live { IsTrue (H.seen shelf.old).live }
        requires stands { StandsFor self.old (H.seen shelf.old) }
        requires takes { IsTrue ((H.seen shelf.old).takes self.old.set 1) }
        ensures number { IfOk result (λ n. n ≡ length self.old.spaces.pages.items) }
        ensures grown { MatchResult result (λ n. GrewBy 1 self.old (H.seen shelf.old) (H.seen shelf.new))
            (λ fault. SameShelf (H.seen shelf.old) (H.seen shelf.new)) }
        ensures no_room { IsErrOf result PageFault.NoRoom → (H.seen shelf.old).free ≡ [] }
        ensures stays { StaysOpen self.old self.new (H.seen shelf.new) }
        ensures keeps { Keeps (H.steady shelf.old shelf.new) (IsErrOf result PageFault.Failed) (H.seen shelf.old) (H.seen shelf.new) }
        ensures fetches { (H.seen shelf.new).fetches ≡ (H.seen shelf.old).fetches }
    {
        let Ok(()) = self.spaces.make_slot() else {
            return Err(PageFault::Memory);
        };
        match shelf.grow(self.set, 1) {
            Err(fault) => Err(fault),
            Ok(page) => {
                let empty = Space::none().with_hole(4080);
                self.spaces.add(empty);
                Ok(page)
            }
        }
    }

    /// Puts a cell into a hole of a page that was read.
    pub(crate) fn fill_page<H: Shelf>(
        &mut self,
        shelf: &mut H,
        page: u16,
        block: &mut [u8; BLOCK],
        tiles: &[Tile],
        gap: Gap,
        cell: &Cell,
    ) -> Result<u32, PageFault>
        requires live { IsTrue (H.seen shelf.old).live }
        requires stands { StandsFor self.old (H.seen shelf.old) }
        requires typed { IsTyped self.old.shapes cell.now }
        requires content { length cell.now.content ≤ 2016 }
        requires below { page < length self.old.spaces.pages.items }
        requires tiling { IsTiling self.old.shapes block.old tiles.now }
        requires gap { IsGap tiles.now (length_of cell.now) gap }
        requires read { IsPage self.old.set page block.old (H.seen shelf.old) }
        ensures takes { IfOk result (λ at. Relays self.old (H.seen shelf.old) (H.seen shelf.new)
            (TakesHole self.old.set cell.now at page (take gap.place tiles.now) gap.room (drop (gap.place + 1) tiles.now))) }
        ensures unchanged { OnErr result (SameShelf (H.seen shelf.old) (H.seen shelf.new)) }
        ensures room { result ≡ Err PageFault.NoRoom → ⊥ }
        ensures stays { StaysOpen self.old self.new (H.seen shelf.new) }
        ensures leaves { OnlyChanges self.old.set (H.steady shelf.old shelf.new) (IsErrOf result PageFault.Failed) (H.seen shelf.old) (H.seen shelf.new) }
        ensures fetches { (H.seen shelf.new).fetches ≡ (H.seen shelf.old).fetches }
    {
        let shape = self.shape_for(cell);
        fill(block, shape, gap, cell);
        let space = filled(tiles, gap, cell_size(shape));
        self.stage(shelf, page, block)?;
        self.spaces.set(usize::from(page), space);
        Ok(address_of(self.set, page, gap.at))
    }
}
