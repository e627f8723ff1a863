// A store that stays open from call to call, beside the shelf that it stands over.
ghost use Rattle.std.specs.Prelude.{IsTrue};
ghost use Rattle.free_space.specs.Store.{StandsFor};
ghost use Rattle.free_space.specs.OneProof.{StandsFor-prop};

use free_space::CellStore;
use hal_base::{PageFault, Shelf};
use segment_blocks::Cell;

/// A shelf, and a store of one of its data sets, which stands for that set between any two calls.
#[derive(Drop)]
pub struct OpenCells<H: Shelf + Drop> {
    shelf: H,
    store: CellStore,
    ghost stands: { StandsFor store (H.seen shelf) } by { StandsFor-prop store (H.seen shelf) },
}

impl<H: Shelf + Drop> OpenCells<H> {
    /// What stands at an address.
    pub fn find(&mut self, at: u32) -> Result<Option<Cell>, PageFault>
        requires { IsTrue (H.seen self.old.shelf).live }
    {
        self.store.find(&mut self.shelf, at)
    }
}
