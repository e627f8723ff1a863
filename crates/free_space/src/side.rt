// A side is opened: the cells of each of its ten letters.
ghost use Rattle.std.specs.Prelude.{◌≡◌, ℕ, ◌+◌, ◌<◌, ◌≤◌, true, List as ListOf, length, slice_get, Some, IfOk, OnErr, IsErrOf, IsTrue};
ghost use Rattle.hal_base.specs.ShelfCalls.{OnlyReads};
ghost use Rattle.free_space.specs.declared.store.CellStore.{CellStore as StoreOf};
ghost use Rattle.free_space.specs.Side.{IsFirst, lettered, are_letters, place_at, place_of};
ghost use Rattle.free_space.specs.SideCalls.{IsOpenedOn, SideBreaksAt, side_pages};
ghost use Rattle.free_space.specs.Store.{StandsFor, IsTyped};

use crate::CellStore;
use crate::open::kept;
use hal_base::{List, SetId, Shape, Shelf, StoreFault};
use segment_blocks::Cell;
use std::alloc::Global;

/// The cells of one side of a partition, by their addresses: the data sets of the letters A to J, or M to V, each of which
/// may have no page (IMS: data set groups). The shelf is passed at each call.
///
/// A call answers `Failed` where the shelf failed, and `Memory` where no memory was to be had, or where a page was read
/// otherwise than before. Then no cell has changed; `place` and `append` may have added empty pages, and they alone answer
/// `NoRoom`.
#[derive(Debug, Drop)]
pub struct SideCells {
    pub(crate) first: SetId,
    pub(crate) letters: List<u8>,
    pub(crate) shapes: List<Shape>,
    pub(crate) stores: Vec<CellStore>,
}

/// The data set of the letter at a place.
pub(crate) fn lettered(first: SetId, place: u8) -> SetId
    requires first { IsFirst first }
    requires place { place < 10 }
    ensures { result ≡ lettered first place }
{
    SetId {
        letter: first.letter + place,
        ..first
    }
}

/// The store of each letter.
fn open_stores<H: Shelf>(
    alloc: Global,
    shelf: &mut H,
    first: SetId,
    shapes: &[Shape],
) -> Result<Vec<CellStore>, StoreFault>
    requires live { IsTrue (H.seen shelf.old).live }
    requires first { IsFirst first }
    ensures ten { IfOk result (λ stores. length stores.items ≡ 10) }
    ensures each { IfOk result (λ stores. (place : ℕ) (store : StoreOf) → slice_get stores.items place ≡ Some store →
        (store.set ≡ lettered first place) × (store.shapes ≡ shapes.now) × StandsFor store (H.seen shelf.new)) }
    ensures bad { (n offset : ℕ) → result ≡ Err (StoreFault.BadTile n offset) → SideBreaksAt first shapes.now (H.seen shelf.old) n offset }
    ensures leaves { OnlyReads (side_pages first (H.seen shelf.old)) (H.steady shelf.old shelf.new)
        (IsErrOf result StoreFault.Failed) (H.seen shelf.old) (H.seen shelf.new) }
{
    let mut stores = Vec::new(alloc);
    for place in 0..10 {
        let store = CellStore::open(alloc, shelf, lettered(first, place), shapes)?;
        if stores.push(store).is_err() {
            return Err(StoreFault::Memory);
        }
    }
    Ok(stores)
}

impl SideCells {
    /// The cells of the side whose data set of letter A or M is `first`. Of each type, that of code 1 first, `letters` has
    /// the letter, A to J, of whichever side, and `shapes` the shape. Each page is read once. `BadTile` names the first
    /// page whose body isn't tiled, of the first letter that has one, and the first offset in it at which no tile begins.
    pub fn open<H: Shelf>(
        alloc: Global,
        shelf: &mut H,
        first: SetId,
        letters: &[u8],
        shapes: &[Shape],
    ) -> Result<SideCells, StoreFault>
        requires live { IsTrue (H.seen shelf.old).live }
        requires first { IsFirst first }
        requires letters { IsTrue (are_letters letters.now) }
        requires as_many { length letters.now ≡ length shapes.now }
        ensures opened { IfOk result (IsOpenedOn first letters.now shapes.now (H.seen shelf.new)) }
        ensures bad { (n offset : ℕ) → result ≡ Err (StoreFault.BadTile n offset) → SideBreaksAt first shapes.now (H.seen shelf.old) n offset }
        ensures leaves { OnlyReads (side_pages first (H.seen shelf.old)) (H.steady shelf.old shelf.new)
            (IsErrOf result StoreFault.Failed) (H.seen shelf.old) (H.seen shelf.new) }
    {
        let letters = kept(alloc, letters)?;
        let shapes = kept(alloc, shapes)?;
        let stores = open_stores(alloc, shelf, first, shapes.as_slice())?;
        Ok(SideCells {
            first,
            letters,
            shapes,
            stores,
        })
    }

    /// The place of the letter of the cell's type.
    pub(crate) fn place_of(&self, cell: &Cell) -> usize
        requires typed { IsTyped self.now.shapes cell.now }
        requires as_many { length self.now.letters ≡ length self.now.shapes }
        requires letters { IsTrue (are_letters self.now.letters) }
        ensures place { result ≡ place_of self.now.letters cell.now.code }
        ensures below { result < 10 }
    {
        usize::from(self.letters.as_slice()[usize::from(cell.code) - 1] - b'A')
    }
}

/// The place of the letter in an address.
pub(crate) fn place_at(at: u32) -> usize
    ensures { result ≡ place_at at }
{
    (at >> 28) as usize
}
