// Taking a row away.
ghost use Rattle.std.specs.Prelude.{◌≡◌, ◌+◌, ◌≤◌, IfOk, OnErr, IsErrOf, IsTrue};
ghost use Rattle.hal_base.specs.ShelfCalls.{SameShelf};
ghost use Rattle.keyed_sets.specs.Calls.{IsOpened, Removes, StaysOpen, Writes};

use crate::KeyedSet;
use crate::page_edits::remove_row;
use hal_base::{BLOCK, PageFault, Shelf};

impl KeyedSet {
    /// Takes the row of this key away, and says whether there was one. A page that is left without rows stays a page of
    /// the set, for a later row.
    pub fn remove<H: Shelf>(&mut self, shelf: &mut H, key: &[u8]) -> Result<bool, PageFault>
        requires live { IsTrue (H.seen shelf.old).live }
        requires opened { IsOpened self.old (H.seen shelf.old) }
        ensures removed { IfOk result (Removes self.old (H.seen shelf.old) (H.seen shelf.new) key.now) }
        ensures opened { StaysOpen self.old self.new (H.seen shelf.new) }
        ensures leaves { Writes self.old (H.steady shelf.old shelf.new) (IsErrOf result PageFault.Failed) (H.seen shelf.old) (H.seen shelf.new) }
        ensures fails { OnErr result (SameShelf (H.seen shelf.old) (H.seen shelf.new)) × (IsErrOf result PageFault.NoRoom → ⊥) }
        ensures few { (H.seen shelf.new).fetches ≤ (H.seen shelf.old).fetches + 1 }
    {
        if !self.index.has_rows() {
            return Ok(false);
        }
        let mut page = [0; BLOCK];
        let spot = self.seek(shelf, key, &mut page)?;
        if !spot.found {
            return Ok(false);
        }
        remove_row(self.shape, &mut page, spot.at);
        self.index
            .put_page(shelf, self.set, self.shape, spot.home, &page)?;
        Ok(true)
    }
}
