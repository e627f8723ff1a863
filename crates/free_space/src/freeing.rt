// A cell that is given back.
ghost use Rattle.std.specs.Prelude.{◌≡◌, false, OnOk, OnErr, IsErrOf, IsTrue};
ghost use Rattle.hal_base.specs.ShelfCalls.{SameShelf};
ghost use Rattle.free_space.specs.Changes.{GivesBack};
ghost use Rattle.free_space.specs.Store.{StandsFor, StaysOpen, Relays, HoldsAt, Writes};

use crate::CellStore;
use crate::address::{offset_of, page_of};
use crate::page::clear;
use crate::tiles::find_cell;
use hal_base::{BLOCK, PageFault, Shelf};

impl CellStore {
    /// Makes a hole of the cell at an address, and of the holes that touch it.
    pub fn give_back<H: Shelf>(&mut self, shelf: &mut H, at: u32) -> Result<(), PageFault>
        requires live { IsTrue (H.seen shelf.old).live }
        requires stands { StandsFor self.old (H.seen shelf.old) }
        requires cell { HoldsAt self.old (H.seen shelf.old) at (λ cell. cell.copied ≡ false) }
        ensures given_back { OnOk result (Relays self.old (H.seen shelf.old) (H.seen shelf.new) (GivesBack self.old.set at)) }
        ensures unchanged { OnErr result (SameShelf (H.seen shelf.old) (H.seen shelf.new)) }
        ensures room { result ≡ Err PageFault.NoRoom → ⊥ }
        ensures stays { StaysOpen self.old self.new (H.seen shelf.new) }
        ensures leaves { Writes 1 self.old.set (H.steady shelf.old shelf.new) (IsErrOf result PageFault.Failed) (H.seen shelf.old) (H.seen shelf.new) }
    {
        let page = page_of(at);
        let mut block = [0; BLOCK];
        let tiles = self.read_page(shelf, page, &mut block)?;
        let found = tiles.as_slice();
        let Some((place, _)) = find_cell(found, offset_of(at)) else {
            return Err(PageFault::Memory);
        };
        let space = clear(&mut block, found, place);
        self.stage(shelf, page, &block)?;
        self.spaces.set(usize::from(page), space);
        Ok(())
    }
}
