// Looking up a row.
ghost use Rattle.std.specs.Prelude.{◌≡◌, ◌+◌, ◌<◌, ◌≤◌, length, slice_get, true, if◌then◌else◌, None, IfOk, IfSome, IsErrOf, IsTrue};
ghost use Rattle.std.specs.Option.{option_map};
ghost use Rattle.hal_base.specs.ShelfCalls.{OnlyReads};
ghost use Rattle.keyed_sets.specs.Layout.{HasPlace, rows_in, count_of};
ghost use Rattle.keyed_sets.specs.Calls.{IsOpened, Finds};

use crate::page::body_at;
use crate::{KeyedSet, RowShape};
use hal_base::{BLOCK, Bytes, Memory, PageFault, Shelf};
use std::alloc::Global;

/// The body of the row at a place, where it was found there.
fn body_of(
    alloc: Global,
    shape: RowShape,
    page: &[u8; BLOCK],
    at: u16,
    found: bool,
) -> Result<Option<Bytes>, Memory>
    requires place { HasPlace shape page.now }
    requires within { found ≡ true → at < count_of page.now }
    ensures body { IfOk result (λ body. body ≡ (if found then option_map (λ row. row.1) (slice_get (rows_in shape page.now) at) else None)) }
    ensures long { IfOk result (λ body. IfSome body (λ bytes. length bytes ≡ shape.body)) }
{
    if !found {
        return Ok(None);
    }
    let body = Bytes::from_slice(alloc, body_at(shape, page, at))?;
    Ok(Some(body))
}

impl KeyedSet {
    /// The body of the row of this key.
    pub fn get<H: Shelf>(&mut self, shelf: &mut H, key: &[u8]) -> Result<Option<Bytes>, PageFault>
        requires live { IsTrue (H.seen shelf.old).live }
        requires opened { IsOpened self.old (H.seen shelf.old) }
        ensures found { IfOk result (Finds self.old (H.seen shelf.old) key.now) }
        ensures kept { (self.new ≡ self.old) × IsOpened self.new (H.seen shelf.new) }
        ensures leaves { OnlyReads 1 (H.steady shelf.old shelf.new) (IsErrOf result PageFault.Failed) (H.seen shelf.old) (H.seen shelf.new) }
        ensures room { IsErrOf result PageFault.NoRoom → ⊥ }
    {
        if !self.index.has_rows() {
            return Ok(None);
        }
        let mut page = [0; BLOCK];
        let spot = self.seek(shelf, key, &mut page)?;
        let alloc = *self.index.firsts.allocator();
        let body = body_of(alloc, self.shape, &page, spot.at, spot.found)?;
        Ok(body)
    }
}
