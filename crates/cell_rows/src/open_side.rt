// The cells of a side, open from call to call, beside the shelf that they stand on.
ghost use Rattle.std.specs.Prelude.{◌≡◌, ◌≢◌, ◌<◌, ◌≤◌, false, length, IfOk, IsTrue, ⊤};
ghost use Rattle.hal_base.specs.declared.pages.SetId.{SetId as SetOf};
ghost use Rattle.free_space.specs.OneProof.{StandsForSide-prop};
ghost use Rattle.free_space.specs.Side.{IsFirst, are_letters, lettered};
ghost use Rattle.free_space.specs.SideCalls.{StandsForSide, Holds};
ghost use Rattle.free_space.specs.Store.{IsTyped};

use crate::cell_of;
use free_space::{PlacedCell, SideCells};
use hal_base::{Bytes, Ilk, List, PageFault, SetId, Shape, Shelf, StoreFault};
use segment_blocks::Cell;
use std::alloc::Global;

/// A shelf, and the cells of a side on it, which stand for their data sets between any two calls.
#[derive(Drop)]
pub struct OpenSide<H: Shelf + Drop> {
    alloc: Global,
    shelf: H,
    side: SideCells,
    shapes: List<Shape>,
    ghost stands: { StandsForSide side (H.seen shelf) } by { StandsForSide-prop side (H.seen shelf) },
    ghost same: { side.shapes ≡ shapes },
}

impl<H: Shelf + Drop> OpenSide<H> {
    /// The cells of a side of the shelf. Of each type, that of code 1 first, its letter, A to J, and its shape.
    pub fn new(
        alloc: Global,
        mut shelf: H,
        first: SetId,
        letters: &[u8],
        shapes: &[Shape],
    ) -> Result<OpenSide<H>, StoreFault>
        requires live { IsTrue (H.seen shelf).live }
        requires first { IsFirst first }
        requires letters { IsTrue (are_letters letters.now) }
        requires as_many { length letters.now ≡ length shapes.now }
    {
        let side = SideCells::open(alloc, &mut shelf, first, letters, shapes)?;
        match List::from_slice(alloc, shapes) {
            Ok(shapes) => Ok(OpenSide {
                alloc,
                shelf,
                side,
                shapes,
            }),
            Err(_) => Err(StoreFault::Memory),
        }
    }

    /// A cell of a type, without twins and children, each byte of whose content is the same.
    fn new_cell(&self, code: u8, byte: u8) -> Result<Cell, PageFault>
        ensures typed { IfOk result (IsTyped self.now.side.shapes) }
        ensures content { IfOk result (λ cell. length cell.content ≤ 2016) }
    {
        if code == 0 {
            return Err(PageFault::Memory);
        }
        let Some(shape) = self.shapes.as_slice().get(usize::from(code) - 1) else {
            return Err(PageFault::Memory);
        };
        if shape.bytes > 2016 {
            return Err(PageFault::Memory);
        }
        match cell_of(self.alloc, code, *shape, byte) {
            Ok(cell) => Ok(cell),
            Err(_) => Err(PageFault::Memory),
        }
    }

    /// Stores a new cell of a type in the lowest hole of its letter.
    pub fn place(&mut self, code: u8, byte: u8) -> Result<u32, PageFault>
        requires live { IsTrue (H.seen self.old.shelf).live }
        requires takes { (set : SetOf) → IsTrue ((H.seen self.old.shelf).takes set 1) }
    {
        let cell = self.new_cell(code, byte)?;
        self.side.place(&mut self.shelf, &cell)
    }

    /// Stores a new cell of a type past all others of its letter.
    pub fn append(&mut self, code: u8, byte: u8) -> Result<u32, PageFault>
        requires live { IsTrue (H.seen self.old.shelf).live }
        requires takes { (set : SetOf) → IsTrue ((H.seen self.old.shelf).takes set 1) }
    {
        let cell = self.new_cell(code, byte)?;
        self.side.append(&mut self.shelf, &cell, 0, 0)
    }

    pub fn find(&mut self, at: u32) -> Result<Option<Cell>, PageFault>
        requires { IsTrue (H.seen self.old.shelf).live }
    {
        self.side.find(&mut self.shelf, at)
    }

    pub fn set_twin(&mut self, at: u32, twin: u32) -> Result<(), PageFault>
        requires live { IsTrue (H.seen self.old.shelf).live }
        requires cell { Holds self.old.side (H.seen self.old.shelf) at (λ _. ⊤) }
    {
        self.side.set_twin(&mut self.shelf, at, twin)
    }

    pub fn set_child(&mut self, at: u32, place: u8, to: u32) -> Result<(), PageFault>
        requires live { IsTrue (H.seen self.old.shelf).live }
        requires cell { Holds self.old.side (H.seen self.old.shelf) at (λ cell. place < length cell.children) }
    {
        self.side.set_child(&mut self.shelf, at, place, to)
    }

    pub fn set_content(&mut self, at: u32, content: Bytes) -> Result<(), PageFault>
        requires live { IsTrue (H.seen self.old.shelf).live }
        requires cell { Holds self.old.side (H.seen self.old.shelf) at (λ cell. length content ≡ length cell.content) }
    {
        self.side.set_content(&mut self.shelf, at, content)
    }

    pub fn set_name(&mut self, at: u32, name: Ilk) -> Result<(), PageFault>
        requires live { IsTrue (H.seen self.old.shelf).live }
        requires cell { Holds self.old.side (H.seen self.old.shelf) at (λ _. ⊤) }
    {
        self.side.set_name(&mut self.shelf, at, name)
    }

    pub fn mark_copied(&mut self, at: u32) -> Result<(), PageFault>
        requires live { IsTrue (H.seen self.old.shelf).live }
        requires cell { Holds self.old.side (H.seen self.old.shelf) at (λ _. ⊤) }
    {
        self.side.mark_copied(&mut self.shelf, at)
    }

    pub fn give_back(&mut self, at: u32) -> Result<(), PageFault>
        requires live { IsTrue (H.seen self.old.shelf).live }
        requires cell { Holds self.old.side (H.seen self.old.shelf) at (λ cell. cell.copied ≡ false) }
    {
        self.side.give_back(&mut self.shelf, at)
    }

    /// How many pages a letter has, by its place.
    pub fn pages(&self, place: u8) -> u32
        requires { place < 10 }
        ensures { result ≡ length ((H.seen self.now.shelf).places (lettered self.now.side.first place)) }
    {
        self.side.pages(&self.shelf, place)
    }

    pub fn page_cells(&mut self, place: u8, page: u16) -> Result<List<PlacedCell>, PageFault>
        requires live { IsTrue (H.seen self.old.shelf).live }
        requires place { place < 10 }
    {
        if u32::from(page) >= self.pages(place) {
            return Err(PageFault::Memory);
        }
        self.side.page_cells(&mut self.shelf, place, page)
    }
}
