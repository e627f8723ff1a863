// The cells of a side, letter by letter and page by page in the order of their addresses.
ghost use Rattle.std.specs.Prelude.{◌≡◌, ◌<◌, length, IfOk, IsErrOf, IsTrue};
ghost use Rattle.hal_base.specs.ShelfCalls.{OnlyReads};
ghost use Rattle.free_space.specs.Side.{IsFirst, lettered};
ghost use Rattle.free_space.specs.SideCalls.{StandsForSide, Lists};

use crate::side::lettered;
use crate::{PlacedCell, SideCells};
use hal_base::{List, PageFault, Shelf};

impl SideCells {
    /// How many pages the letter at a place has, the place of A or M being 0.
    pub fn pages<H: Shelf>(&self, shelf: &H, place: u8) -> u32
        requires first { IsFirst self.now.first }
        requires place { place < 10 }
        ensures { result ≡ length ((H.seen shelf.now).places (lettered self.now.first place)) }
    {
        shelf.pages(lettered(self.first, place))
    }

    /// The cells of a page of the letter at a place, each with its address, in the order of addresses. To go through a side,
    /// go through its ten letters and their pages.
    pub fn page_cells<H: Shelf>(
        &self,
        shelf: &mut H,
        place: u8,
        page: u16,
    ) -> Result<List<PlacedCell>, PageFault>
        requires live { IsTrue (H.seen shelf.old).live }
        requires stands { StandsForSide self.now (H.seen shelf.old) }
        requires place { place < 10 }
        requires page { page < length ((H.seen shelf.old).places (lettered self.now.first place)) }
        ensures cells { IfOk result (Lists self.now (H.seen shelf.old) place page) }
        ensures room { result ≡ Err PageFault.NoRoom → ⊥ }
        ensures stands { StandsForSide self.now (H.seen shelf.new) }
        ensures leaves { OnlyReads 1 (H.steady shelf.old shelf.new) (IsErrOf result PageFault.Failed) (H.seen shelf.old) (H.seen shelf.new) }
    {
        self.stores[usize::from(place)].page_cells(shelf, page)
    }
}
