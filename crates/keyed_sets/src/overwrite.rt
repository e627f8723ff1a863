// A part of a row's body written over.
ghost use Rattle.std.specs.Prelude.{◌≡◌, ◌+◌, ◌<◌, ◌≤◌, length, slice_get, IfOk, OnErr, IsErrOf, IsTrue, Some};
ghost use Rattle.std.specs.Option.{option_map};
ghost use Rattle.hal_base.specs.ShelfCalls.{SameShelf};
ghost use Rattle.keyed_sets.specs.Calls.{IsOpened, Overwrites, StaysOpen, Writes};
ghost use Rattle.keyed_sets.specs.Layout.{HasPlace, rows_in, count_of};
ghost use Rattle.keyed_sets.specs.Map.{written_over};

use crate::page::body_at;
use crate::{KeyedSet, RowShape};
use hal_base::{BLOCK, Bytes, Memory, PageFault, Shelf};
use std::alloc::Global;

/// The body of the row at a place, with these bytes over its own from an offset on.
fn body_with(
    alloc: Global,
    shape: RowShape,
    page: &[u8; BLOCK],
    at: u16,
    offset: u16,
    part: &[u8],
) -> Result<Bytes, Memory>
    requires place { HasPlace shape page.now }
    requires within { at < count_of page.now }
    requires fits { offset + length part.now ≤ shape.body }
    ensures body { IfOk result (λ body. option_map (λ row. written_over offset part.now row.1) (slice_get (rows_in shape page.now) at) ≡ Some body) }
    ensures long { IfOk result (λ body. length body ≡ shape.body) }
{
    let old = body_at(shape, page, at);
    let start = usize::from(offset);
    let mut body = Bytes::from_slice(alloc, &old[..start])?;
    body.append(part)?;
    body.append(&old[start + part.len()..])?;
    Ok(body)
}

impl KeyedSet {
    /// Writes bytes over the body of the row of this key, from an offset in it on, and says whether there is such a row.
    /// It needs no block.
    pub fn overwrite<H: Shelf>(
        &mut self,
        shelf: &mut H,
        key: &[u8],
        offset: u16,
        part: &[u8],
    ) -> Result<bool, PageFault>
        requires live { IsTrue (H.seen shelf.old).live }
        requires opened { IsOpened self.old (H.seen shelf.old) }
        requires fits { offset + length part.now ≤ self.old.shape.body }
        ensures written { IfOk result (Overwrites self.old key.now offset part.now (H.seen shelf.old) (H.seen shelf.new)) }
        ensures opened { StaysOpen self.old self.new (H.seen shelf.new) }
        ensures leaves { Writes self.old (H.steady shelf.old shelf.new) (IsErrOf result PageFault.Failed) (H.seen shelf.old) (H.seen shelf.new) }
        ensures fails { OnErr result (SameShelf (H.seen shelf.old) (H.seen shelf.new)) × (IsErrOf result PageFault.NoRoom → ⊥) }
        ensures few { (H.seen shelf.new).fetches ≤ (H.seen shelf.old).fetches + 1 }
    {
        if !self.index.has_rows() {
            return Ok(false);
        }
        let mut page = [0; BLOCK];
        let spot = self.seek(shelf, key, &mut page)?;
        if !spot.found {
            return Ok(false);
        }
        let alloc = *self.index.firsts.allocator();
        let body = body_with(alloc, self.shape, &page, spot.at, offset, part)?;
        self.fit_row(shelf, spot, &mut page, key, body.as_slice())?;
        Ok(true)
    }
}
