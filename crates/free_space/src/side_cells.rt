// The cells of a side, found and changed where they stand.
ghost use Rattle.std.specs.Prelude.{◌≡◌, ◌<◌, true, length, slice_set, Some, IfOk, IsErrOf, IsTrue, ⊤};
ghost use Rattle.hal_base.specs.ShelfCalls.{OnlyReads};
ghost use Rattle.free_space.specs.Changes.{changed};
ghost use Rattle.free_space.specs.SideCalls.{StandsForSide, Finds, Holds, AltersCell, WritesAt};

use crate::SideCells;
use crate::change::Change;
use crate::side::place_at;
use hal_base::{Bytes, Ilk, PageFault, Shelf};
use segment_blocks::Cell;

impl SideCells {
    /// What stands at an address, whatever number that is.
    pub fn find<H: Shelf>(&self, shelf: &mut H, at: u32) -> Result<Option<Cell>, PageFault>
        requires live { IsTrue (H.seen shelf.old).live }
        requires stands { StandsForSide self.now (H.seen shelf.old) }
        ensures found { IfOk result (Finds self.now (H.seen shelf.old) at) }
        ensures room { result ≡ Err PageFault.NoRoom → ⊥ }
        ensures stands { StandsForSide self.now (H.seen shelf.new) }
        ensures leaves { OnlyReads 1 (H.steady shelf.old shelf.new) (IsErrOf result PageFault.Failed) (H.seen shelf.old) (H.seen shelf.new) }
    {
        let place = place_at(at);
        if place >= self.stores.len() {
            return Ok(None);
        }
        self.stores[place].find(shelf, at)
    }

    /// The cell at an address.
    pub fn cell<H: Shelf>(&self, shelf: &mut H, at: u32) -> Result<Cell, PageFault>
        requires live { IsTrue (H.seen shelf.old).live }
        requires stands { StandsForSide self.now (H.seen shelf.old) }
        requires cell { Holds self.now (H.seen shelf.old) at (λ _. ⊤) }
        ensures cell { IfOk result (λ cell. Finds self.now (H.seen shelf.old) at (Some cell)) }
        ensures room { result ≡ Err PageFault.NoRoom → ⊥ }
        ensures stands { StandsForSide self.now (H.seen shelf.new) }
        ensures leaves { OnlyReads 1 (H.steady shelf.old shelf.new) (IsErrOf result PageFault.Failed) (H.seen shelf.old) (H.seen shelf.new) }
    {
        match self.find(shelf, at)? {
            Some(cell) => Ok(cell),
            None => Err(PageFault::Memory),
        }
    }

    /// Changes the cell at an address, if one stands there and the change leaves it its shape.
    fn rewrite<H: Shelf>(&self, shelf: &mut H, at: u32, change: Change) -> Result<(), PageFault>
        requires live { IsTrue (H.seen shelf.old).live }
        requires stands { StandsForSide self.now (H.seen shelf.old) }
        requires cell { Holds self.now (H.seen shelf.old) at (λ _. ⊤) }
        ensures alters { AltersCell result self.now at (changed change) (H.seen shelf.old) (H.seen shelf.new) }
        ensures stands { StandsForSide self.now (H.seen shelf.new) }
        ensures leaves { WritesAt 1 self.now at (H.steady shelf.old shelf.new) (IsErrOf result PageFault.Failed) (H.seen shelf.old) (H.seen shelf.new) }
    {
        let place = place_at(at);
        if place >= self.stores.len() {
            return Err(PageFault::Memory);
        }
        self.stores[place].rewrite(shelf, at, change)
    }

    /// Sets the next twin of the cell at an address, 0 for none.
    pub fn set_twin<H: Shelf>(&self, shelf: &mut H, at: u32, twin: u32) -> Result<(), PageFault>
        requires live { IsTrue (H.seen shelf.old).live }
        requires stands { StandsForSide self.now (H.seen shelf.old) }
        requires cell { Holds self.now (H.seen shelf.old) at (λ _. ⊤) }
        ensures alters { AltersCell result self.now at (λ cell. record cell { twin = twin }) (H.seen shelf.old) (H.seen shelf.new) }
        ensures stands { StandsForSide self.now (H.seen shelf.new) }
        ensures leaves { WritesAt 1 self.now at (H.steady shelf.old shelf.new) (IsErrOf result PageFault.Failed) (H.seen shelf.old) (H.seen shelf.new) }
    {
        self.rewrite(shelf, at, Change::Twin(twin))
    }

    /// Sets the first child of the cell at an address, of the child type at a place from 0; 0 for none.
    pub fn set_child<H: Shelf>(
        &self,
        shelf: &mut H,
        at: u32,
        place: u8,
        to: u32,
    ) -> Result<(), PageFault>
        requires live { IsTrue (H.seen shelf.old).live }
        requires stands { StandsForSide self.now (H.seen shelf.old) }
        requires cell { Holds self.now (H.seen shelf.old) at (λ cell. place < length cell.children) }
        ensures alters { AltersCell result self.now at (λ cell. record cell { children = slice_set cell.children place to })
            (H.seen shelf.old) (H.seen shelf.new) }
        ensures stands { StandsForSide self.now (H.seen shelf.new) }
        ensures leaves { WritesAt 1 self.now at (H.steady shelf.old shelf.new) (IsErrOf result PageFault.Failed) (H.seen shelf.old) (H.seen shelf.new) }
    {
        self.rewrite(shelf, at, Change::Child { place, to })
    }

    /// Sets the content of the cell at an address.
    pub fn set_content<H: Shelf>(
        &self,
        shelf: &mut H,
        at: u32,
        content: Bytes,
    ) -> Result<(), PageFault>
        requires live { IsTrue (H.seen shelf.old).live }
        requires stands { StandsForSide self.now (H.seen shelf.old) }
        requires cell { Holds self.now (H.seen shelf.old) at (λ cell. length content ≡ length cell.content) }
        ensures alters { AltersCell result self.now at (λ cell. record cell { content = content }) (H.seen shelf.old) (H.seen shelf.new) }
        ensures stands { StandsForSide self.now (H.seen shelf.new) }
        ensures leaves { WritesAt 1 self.now at (H.steady shelf.old shelf.new) (IsErrOf result PageFault.Failed) (H.seen shelf.old) (H.seen shelf.new) }
    {
        self.rewrite(shelf, at, Change::Content(content))
    }

    /// Sets the name of the cell at an address, which is known only once the cell was placed.
    pub fn set_name<H: Shelf>(&self, shelf: &mut H, at: u32, name: Ilk) -> Result<(), PageFault>
        requires live { IsTrue (H.seen shelf.old).live }
        requires stands { StandsForSide self.now (H.seen shelf.old) }
        requires cell { Holds self.now (H.seen shelf.old) at (λ _. ⊤) }
        ensures alters { AltersCell result self.now at (λ cell. record cell { name = name }) (H.seen shelf.old) (H.seen shelf.new) }
        ensures stands { StandsForSide self.now (H.seen shelf.new) }
        ensures leaves { WritesAt 1 self.now at (H.steady shelf.old shelf.new) (IsErrOf result PageFault.Failed) (H.seen shelf.old) (H.seen shelf.new) }
    {
        self.rewrite(shelf, at, Change::Name(name))
    }

    /// Marks the cell at an address as copied into the other data set.
    pub fn mark_copied<H: Shelf>(&self, shelf: &mut H, at: u32) -> Result<(), PageFault>
        requires live { IsTrue (H.seen shelf.old).live }
        requires stands { StandsForSide self.now (H.seen shelf.old) }
        requires cell { Holds self.now (H.seen shelf.old) at (λ _. ⊤) }
        ensures alters { AltersCell result self.now at (λ cell. record cell { copied = true }) (H.seen shelf.old) (H.seen shelf.new) }
        ensures stands { StandsForSide self.now (H.seen shelf.new) }
        ensures leaves { WritesAt 1 self.now at (H.steady shelf.old shelf.new) (IsErrOf result PageFault.Failed) (H.seen shelf.old) (H.seen shelf.new) }
    {
        self.rewrite(shelf, at, Change::Copied)
    }
}
