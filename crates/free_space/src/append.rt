// A new cell past the last cell of the data set.
ghost use Rattle.std.specs.Prelude.{◌≡◌, ◌≢◌, ℕ, ◌+◌, ◌-◌, ◌<◌, ◌≤◌, ◌^◌, length, slice_get, Some, IfOk, IfSome, IfNone, MatchResult, OnOk, OnErr, IsErrOf, IsTrue, ◌↔◌};
ghost use Rattle.hal_base.specs.ShelfCalls.{SameShelf, Keeps, OnlyChanges};
ghost use Rattle.segment_blocks.specs.declared.space.Space.{Space as SpaceOf};
ghost use Rattle.free_space.specs.Placing.{length_of, is_due, opened_pages, AppendsIn, NoPlace, IsLeft, IsLastOpen, HasRoom};
ghost use Rattle.free_space.specs.Store.{StandsFor, StaysOpen, Relays, AppendsAt, GetsEmpty, Grows, IsSaid, added, GrewBy, IsTyped};

use crate::CellStore;
use crate::tiles::last_gap;
use hal_base::{BLOCK, PageFault, Shelf};
use segment_blocks::{Cell, Space, cell_size};

/// A page of this number is left empty by fbff, as long as no other call puts a cell there.
fn is_due(fbff: u8, page: usize) -> bool
    requires { page < 2 ^ 32 }
    ensures { result ≡ is_due fbff page }
{
    fbff != 0 && (page + 1) % usize::from(fbff) == 0
}

/// A page of this number with these numbers is left empty.
fn is_left_empty(space: Space, fbff: u8, page: usize) -> bool
    requires { page < 2 ^ 32 }
    ensures { IsTrue result ↔ IsLeft fbff page space }
{
    !space.cells && is_due(fbff, page)
}

/// The last page that isn't left empty.
fn last_open(spaces: &[Space], fbff: u8) -> Option<usize>
    requires { length spaces.now < 2 ^ 32 }
    ensures found { IfSome result (IsLastOpen fbff spaces.now) }
    ensures none { IfNone result ((k : ℕ) (space : SpaceOf) → slice_get spaces.now k ≡ Some space → IsLeft fbff k space) }
{
    for page in (0..spaces.len()).rev() {
        if !is_left_empty(spaces[page], fbff, page) {
            return Some(page);
        }
    }
    None
}

/// So many bytes have place past the last cell of a page, and fspf in a hundred of its bytes stay free.
fn has_room(space: Space, fspf: u8, len: u16) -> bool
    ensures { IsTrue result ↔ HasRoom fspf len space }
{
    let kept = 4080 * u32::from(fspf) / 100;
    len <= space.last && kept + u32::from(len) <= u32::from(space.free)
}

/// The page that takes a cell of this length without a new one.
fn page_with_room(spaces: &[Space], fbff: u8, fspf: u8, len: u16) -> Option<usize>
    requires { length spaces.now < 2 ^ 32 }
    ensures found { IfSome result (λ page. IsLastOpen fbff spaces.now page
        × ((space : SpaceOf) → slice_get spaces.now page ≡ Some space → HasRoom fspf len space)) }
    ensures none { IfNone result ((page : ℕ) (space : SpaceOf) → IsLastOpen fbff spaces.now page → slice_get spaces.now page ≡ Some space
        → HasRoom fspf len space → ⊥) }
{
    let page = last_open(spaces, fbff)?;
    if has_room(spaces[page], fspf, len) {
        Some(page)
    } else {
        None
    }
}

impl CellStore {
    /// Puts a cell into the hole behind the last cell of a page.
    fn append_in<H: Shelf>(
        &mut self,
        shelf: &mut H,
        page: u16,
        cell: &Cell,
    ) -> Result<u32, PageFault>
        requires live { IsTrue (H.seen shelf.old).live }
        requires stands { StandsFor self.old (H.seen shelf.old) }
        requires typed { IsTyped self.old.shapes cell.now }
        requires content { length cell.now.content ≤ 2016 }
        ensures appends_in { IfOk result (λ at. Relays self.old (H.seen shelf.old) (H.seen shelf.new) (AppendsIn self.old.set cell.now at page)) }
        ensures unchanged { OnErr result (SameShelf (H.seen shelf.old) (H.seen shelf.new)) }
        ensures room { result ≡ Err PageFault.NoRoom → ⊥ }
        ensures stays { StaysOpen self.old self.new (H.seen shelf.new) }
        ensures leaves { OnlyChanges self.old.set (H.steady shelf.old shelf.new) (IsErrOf result PageFault.Failed) (H.seen shelf.old) (H.seen shelf.new) }
        ensures few { (H.seen shelf.new).fetches ≤ (H.seen shelf.old).fetches + 1 }
    {
        let len = cell_size(self.shape_for(cell));
        let mut block = [0; BLOCK];
        let tiles = self.read_page(shelf, page, &mut block)?;
        let found = tiles.as_slice();
        let Some(gap) = last_gap(found, len) else {
            return Err(PageFault::Memory);
        };
        self.fill_page(shelf, page, &mut block, found, gap, cell)
    }

    /// Opens the page for the next cell: the next that isn't due, and before it the one that is.
    fn open_page<H: Shelf>(&mut self, shelf: &mut H, fbff: u8) -> Result<u16, PageFault>
        requires live { IsTrue (H.seen shelf.old).live }
        requires stands { StandsFor self.old (H.seen shelf.old) }
        requires takes { IsTrue ((H.seen shelf.old).takes self.old.set 1) }
        ensures number { IfOk result (λ n. n + 1 ≡ length self.old.spaces.pages.items + opened_pages fbff (length self.old.spaces.pages.items)) }
        ensures grown { MatchResult result (λ n. GrewBy (opened_pages fbff (length self.old.spaces.pages.items)) self.old (H.seen shelf.old) (H.seen shelf.new))
            (λ fault. GrewBy (added self.old.set (H.seen shelf.old) (H.seen shelf.new)) self.old (H.seen shelf.old) (H.seen shelf.new)) }
        ensures few { added self.old.set (H.seen shelf.old) (H.seen shelf.new) ≤ opened_pages fbff (length self.old.spaces.pages.items) }
        ensures no_room { IsErrOf result PageFault.NoRoom → length (H.seen shelf.old).free < opened_pages fbff (length self.old.spaces.pages.items) }
        ensures stays { StaysOpen self.old self.new (H.seen shelf.new) }
        ensures keeps { Keeps (H.steady shelf.old shelf.new) (IsErrOf result PageFault.Failed) (H.seen shelf.old) (H.seen shelf.new) }
        ensures fetches { (H.seen shelf.new).fetches ≡ (H.seen shelf.old).fetches }
    {
        if !is_due(fbff, self.spaces.pages.len()) {
            return self.add_page(shelf);
        }
        let _due = self.add_page(shelf)?;
        self.add_page(shelf)
    }

    /// Stores a cell past the last cell of the data set, at an address above all others, and answers that. Of each
    /// `fbff` pages one is left empty, and of each page `fspf` in a hundred bytes (IMS: FRSPC). `NoRoom` comes where
    /// a new page is needed and no block is free; a page that was to be left empty may have been added before.
    pub fn append<H: Shelf>(
        &mut self,
        shelf: &mut H,
        cell: &Cell,
        fbff: u8,
        fspf: u8,
    ) -> Result<u32, PageFault>
        requires live { IsTrue (H.seen shelf.old).live }
        requires stands { StandsFor self.old (H.seen shelf.old) }
        requires takes { IsTrue ((H.seen shelf.old).takes self.old.set 1) }
        requires typed { IsTyped self.old.shapes cell.now }
        requires content { length cell.now.content ≤ 2016 }
        requires step { fbff ≢ 1 }
        ensures appended { MatchResult result (AppendsAt self.old cell.now fbff fspf (H.seen shelf.old) (H.seen shelf.new))
            (λ _. GetsEmpty self.old (H.seen shelf.old) (H.seen shelf.new)) }
        ensures no_room { IsErrOf result PageFault.NoRoom → (length (H.seen shelf.old).free < opened_pages fbff (length ((H.seen shelf.old).places self.old.set)))
            × IsSaid self.old (H.seen shelf.old) (NoPlace fbff fspf (length_of cell.now)) }
        ensures opened { OnOk result (0 < added self.old.set (H.seen shelf.old) (H.seen shelf.new) →
            added self.old.set (H.seen shelf.old) (H.seen shelf.new) ≡ opened_pages fbff (length ((H.seen shelf.old).places self.old.set))) }
        ensures stays { StaysOpen self.old self.new (H.seen shelf.new) }
        ensures leaves { Grows (opened_pages fbff (length ((H.seen shelf.old).places self.old.set))) 1 self.old.set (H.steady shelf.old shelf.new)
            (IsErrOf result PageFault.Failed) (H.seen shelf.old) (H.seen shelf.new) }
    {
        let len = cell_size(self.shape_for(cell));
        match page_with_room(&self.spaces.pages, fbff, fspf, len) {
            Some(page) => self.append_in(shelf, page as u16, cell),
            None => {
                let page = self.open_page(shelf, fbff)?;
                self.append_in(shelf, page, cell)
            }
        }
    }
}
