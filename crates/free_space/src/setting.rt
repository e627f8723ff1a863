// The changes of one cell. It keeps its place, and all other cells stay.
ghost use Rattle.std.specs.Prelude.{◌≡◌, true, length, OnOk, OnErr, IsErrOf, IsTrue, ⊤};
ghost use Rattle.hal_base.specs.ShelfCalls.{SameShelf};
ghost use Rattle.free_space.specs.Changes.{Rewrites};
ghost use Rattle.free_space.specs.Store.{StandsFor, Relays, HoldsAt, Writes};

use crate::CellStore;
use crate::change::Change;
use hal_base::{Bytes, Ilk, List, PageFault, Shelf};

impl CellStore {
    /// Sets the next twin of the cell at an address, and the first child of each child type, 0 for none.
    pub fn set_pointers<H: Shelf>(
        &self,
        shelf: &mut H,
        at: u32,
        twin: u32,
        children: &List<u32>,
    ) -> Result<(), PageFault>
        requires live { IsTrue (H.seen shelf.old).live }
        requires stands { StandsFor self.now (H.seen shelf.old) }
        requires cell { HoldsAt self.now (H.seen shelf.old) at (λ cell. length children.now ≡ length cell.children) }
        ensures changed { OnOk result (Relays self.now (H.seen shelf.old) (H.seen shelf.new)
            (Rewrites self.now.set at (λ cell. record cell { twin = twin; children = children.now }))) }
        ensures unchanged { OnErr result (SameShelf (H.seen shelf.old) (H.seen shelf.new)) }
        ensures room { result ≡ Err PageFault.NoRoom → ⊥ }
        ensures stands { StandsFor self.now (H.seen shelf.new) }
        ensures leaves { Writes 1 self.now.set (H.steady shelf.old shelf.new) (IsErrOf result PageFault.Failed) (H.seen shelf.old) (H.seen shelf.new) }
    {
        let Ok(children) = List::from_slice(self.alloc, children.as_slice()) else {
            return Err(PageFault::Memory);
        };
        self.rewrite(shelf, at, Change::Pointers { twin, children })
    }

    /// Sets the content of the cell at an address.
    pub fn set_data<H: Shelf>(
        &self,
        shelf: &mut H,
        at: u32,
        content: &Bytes,
    ) -> Result<(), PageFault>
        requires live { IsTrue (H.seen shelf.old).live }
        requires stands { StandsFor self.now (H.seen shelf.old) }
        requires cell { HoldsAt self.now (H.seen shelf.old) at (λ cell. length content.now ≡ length cell.content) }
        ensures changed { OnOk result (Relays self.now (H.seen shelf.old) (H.seen shelf.new)
            (Rewrites self.now.set at (λ cell. record cell { content = content.now }))) }
        ensures unchanged { OnErr result (SameShelf (H.seen shelf.old) (H.seen shelf.new)) }
        ensures room { result ≡ Err PageFault.NoRoom → ⊥ }
        ensures stands { StandsFor self.now (H.seen shelf.new) }
        ensures leaves { Writes 1 self.now.set (H.steady shelf.old shelf.new) (IsErrOf result PageFault.Failed) (H.seen shelf.old) (H.seen shelf.new) }
    {
        let Ok(content) = content.copy() else {
            return Err(PageFault::Memory);
        };
        self.rewrite(shelf, at, Change::Content(content))
    }

    /// Sets the name of the cell at an address.
    pub fn set_name<H: Shelf>(&self, shelf: &mut H, at: u32, name: Ilk) -> Result<(), PageFault>
        requires live { IsTrue (H.seen shelf.old).live }
        requires stands { StandsFor self.now (H.seen shelf.old) }
        requires cell { HoldsAt self.now (H.seen shelf.old) at (λ _. ⊤) }
        ensures changed { OnOk result (Relays self.now (H.seen shelf.old) (H.seen shelf.new) (Rewrites self.now.set at (λ cell. record cell { name = name }))) }
        ensures unchanged { OnErr result (SameShelf (H.seen shelf.old) (H.seen shelf.new)) }
        ensures room { result ≡ Err PageFault.NoRoom → ⊥ }
        ensures stands { StandsFor self.now (H.seen shelf.new) }
        ensures leaves { Writes 1 self.now.set (H.steady shelf.old shelf.new) (IsErrOf result PageFault.Failed) (H.seen shelf.old) (H.seen shelf.new) }
    {
        self.rewrite(shelf, at, Change::Name(name))
    }

    /// Marks the cell at an address as copied into the other data set.
    pub fn mark_copied<H: Shelf>(&self, shelf: &mut H, at: u32) -> Result<(), PageFault>
        requires live { IsTrue (H.seen shelf.old).live }
        requires stands { StandsFor self.now (H.seen shelf.old) }
        requires cell { HoldsAt self.now (H.seen shelf.old) at (λ _. ⊤) }
        ensures changed { OnOk result (Relays self.now (H.seen shelf.old) (H.seen shelf.new)
            (Rewrites self.now.set at (λ cell. record cell { copied = true }))) }
        ensures unchanged { OnErr result (SameShelf (H.seen shelf.old) (H.seen shelf.new)) }
        ensures room { result ≡ Err PageFault.NoRoom → ⊥ }
        ensures stands { StandsFor self.now (H.seen shelf.new) }
        ensures leaves { Writes 1 self.now.set (H.steady shelf.old shelf.new) (IsErrOf result PageFault.Failed) (H.seen shelf.old) (H.seen shelf.new) }
    {
        self.rewrite(shelf, at, Change::Copied)
    }
}
