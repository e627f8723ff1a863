// Where a key's row stands in a set, or would stand.
ghost use Rattle.std.specs.Prelude.{◌≡◌, ◌+◌, ◌<◌, ◌≤◌, ◌↔◌, length, IfOk, IsErrOf, IsTrue};
ghost use Rattle.hal_base.specs.ShelfCalls.{OnlyReads};
ghost use Rattle.keyed_sets.specs.Layout.{HasPlace};
ghost use Rattle.keyed_sets.specs.Calls.{IsOpened};
ghost use Rattle.keyed_sets.specs.PageFacts.{HasKeyAt};
ghost use Rattle.keyed_sets.specs.Reading.{IsSought};

use crate::index::home_of;
use crate::page::{count_in, key_at, place_in};
use crate::{KeyedSet, RowShape};
use hal_base::{BLOCK, PageFault, Shelf};

/// The place of a page in the order of first keys, a place among its rows, and whether the row of the key is there.
#[derive(Clone, Copy, Debug)]
pub(crate) struct Spot {
    pub(crate) home: usize,
    pub(crate) at: u16,
    pub(crate) found: bool,
}

/// The row at a place has this key.
pub(crate) fn holds_key(shape: RowShape, page: &[u8; BLOCK], at: u16, key: &[u8]) -> bool
    requires { HasPlace shape page.now }
    ensures short { IsTrue result → at < 65535 }
    ensures holds { IsTrue result ↔ HasKeyAt shape page.now at key.now }
{
    at < count_in(page) && key_at(shape, page, at) == key
}

impl KeyedSet {
    /// Reads the page where a key goes, in a set that has rows, and finds its place there.
    pub(crate) fn seek<H: Shelf>(
        &self,
        shelf: &mut H,
        key: &[u8],
        page: &mut [u8; BLOCK],
    ) -> Result<Spot, PageFault>
        requires live { IsTrue (H.seen shelf.old).live }
        requires some { 0 < length self.now.index.firsts.items }
        requires opened { IsOpened self.now (H.seen shelf.old) }
        ensures sought { IfOk result (λ spot. IsSought self.now key.now spot page.new (H.seen shelf.old)) }
        ensures room { IsErrOf result PageFault.NoRoom → ⊥ }
        ensures leaves { OnlyReads 1 (H.steady shelf.old shelf.new) (IsErrOf result PageFault.Failed) (H.seen shelf.old) (H.seen shelf.new) }
    {
        let home = home_of(&self.index.firsts, key);
        self.read_page(shelf, home, page)?;
        let at = place_in(self.shape, page, key);
        let found = holds_key(self.shape, page, at, key);
        Ok(Spot { home, at, found })
    }
}
