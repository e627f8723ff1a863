// A store is opened: each page is read once.
ghost use Rattle.std.specs.Prelude.{◌≡◌, ℕ, ◌<◌, List as ListOf, length, Some, Err, IfOk, OnErr, IsErrOf, IsTrue};
ghost use Rattle.hal_base.specs.ShelfCalls.{OnlyReads};
ghost use Rattle.free_space.specs.Store.{Knows, StandsFor};
ghost use Rattle.free_space.specs.Opening.{IsSpaceOf, BreaksAt, FirstBreaksAt};

use crate::CellStore;
use crate::spaces::Spaces;
use hal_base::{BLOCK, List, SetId, Shape, Shelf, StoreFault};
use segment_blocks::{Space, measure_block};
use std::alloc::Global;

/// The numbers of one page.
fn read_space<H: Shelf>(
    shelf: &mut H,
    set: SetId,
    shapes: &[Shape],
    page: u16,
) -> Result<Space, StoreFault>
    requires live { IsTrue (H.seen shelf.old).live }
    requires below { page < length ((H.seen shelf.old).places set) }
    ensures space { IfOk result (λ space. (pages : ListOf (ListOf ℕ)) → (H.seen shelf.old).pages set ≡ Some pages → IsSpaceOf shapes.now pages page space) }
    ensures number { (n offset : ℕ) → result ≡ Err (StoreFault.BadTile n offset) → n ≡ page }
    ensures bad { (n offset : ℕ) → result ≡ Err (StoreFault.BadTile n offset) → (pages : ListOf (ListOf ℕ)) → (H.seen shelf.old).pages set ≡ Some pages
        → BreaksAt shapes.now pages n offset }
    ensures leaves { OnlyReads 1 (H.steady shelf.old shelf.new) (IsErrOf result StoreFault.Failed) (H.seen shelf.old) (H.seen shelf.new) }
{
    let mut block = [0; BLOCK];
    if shelf.fetch_page(set, page, &mut block).is_err() {
        return Err(StoreFault::Failed);
    }
    match measure_block(shapes, &block) {
        Ok(space) => Ok(space),
        Err(offset) => Err(StoreFault::BadTile { page, offset }),
    }
}

/// The numbers of each page.
fn read_spaces<H: Shelf>(
    alloc: Global,
    shelf: &mut H,
    set: SetId,
    shapes: &[Shape],
) -> Result<Spaces, StoreFault>
    requires live { IsTrue (H.seen shelf.old).live }
    ensures many { IfOk result (λ spaces. length spaces.pages.items ≡ length ((H.seen shelf.old).places set)) }
    ensures layout { IfOk result (λ spaces. (pages : ListOf (ListOf ℕ)) → (H.seen shelf.old).pages set ≡ Some pages → Knows shapes.now spaces.pages.items pages) }
    ensures bad { (n offset : ℕ) → result ≡ Err (StoreFault.BadTile n offset) → (pages : ListOf (ListOf ℕ)) → (H.seen shelf.old).pages set ≡ Some pages
        → FirstBreaksAt shapes.now pages n offset }
    ensures leaves { OnlyReads (length ((H.seen shelf.old).places set)) (H.steady shelf.old shelf.new) (IsErrOf result StoreFault.Failed)
        (H.seen shelf.old) (H.seen shelf.new) }
{
    let Ok(mut spaces) = Spaces::none(alloc) else {
        return Err(StoreFault::Memory);
    };
    for page in 0..shelf.pages(set) {
        let space = read_space(shelf, set, shapes, page as u16)?;
        let Ok(()) = spaces.make_slot() else {
            return Err(StoreFault::Memory);
        };
        spaces.add(space);
    }
    Ok(spaces)
}

/// A list of these, to be kept.
pub(crate) fn kept<T: Copy + Drop>(alloc: Global, items: &[T]) -> Result<List<T>, StoreFault>
    ensures kept { IfOk result (λ list. list ≡ items.now) }
    ensures memory { OnErr result (result ≡ Err StoreFault.Memory) }
{
    match List::from_slice(alloc, items) {
        Ok(list) => Ok(list),
        Err(_) => Err(StoreFault::Memory),
    }
}

impl CellStore {
    /// The cells of the data set, whose types have these shapes, the shape of code 1 first. `BadTile` names the first
    /// page whose body isn't tiled, and the first offset in it at which no tile begins.
    pub fn open<H: Shelf>(
        alloc: Global,
        shelf: &mut H,
        set: SetId,
        shapes: &[Shape],
    ) -> Result<CellStore, StoreFault>
        requires live { IsTrue (H.seen shelf.old).live }
        ensures opened { IfOk result (λ store. StandsFor store (H.seen shelf.new)) }
        ensures set { IfOk result (λ store. store.set ≡ set) }
        ensures shapes { IfOk result (λ store. store.shapes ≡ shapes.now) }
        ensures bad { (n offset : ℕ) → result ≡ Err (StoreFault.BadTile n offset) → (pages : ListOf (ListOf ℕ)) → (H.seen shelf.old).pages set
            ≡ Some pages → FirstBreaksAt shapes.now pages n offset }
        ensures leaves { OnlyReads (length ((H.seen shelf.old).places set)) (H.steady shelf.old shelf.new) (IsErrOf result StoreFault.Failed)
            (H.seen shelf.old) (H.seen shelf.new) }
    {
        let shapes = kept(alloc, shapes)?;
        let spaces = read_spaces(alloc, shelf, set, shapes.as_slice())?;
        Ok(CellStore {
            alloc,
            set,
            shapes,
            spaces,
        })
    }
}
