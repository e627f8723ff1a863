// A secondary index that stays open from call to call, beside the shelf that it stands over.
ghost use Rattle.std.specs.Prelude.{◌<◌, length, IsTrue};
ghost use Rattle.keyed_sets.specs.Calls.{IsOpened};
ghost use Rattle.keyed_sets.specs.OneProof.{IsOpened-prop};

use hal_base::{PageFault, Shelf, StoreFault};
use hal_schema::Schema;
use secondary_index::{AddFault, Entry, Psindex};
use std::alloc::Global;

/// A shelf, and a secondary index on it, which stands for its pages between any two calls.
#[derive(Drop)]
pub struct OpenIndex<H: Shelf + Drop> {
    shelf: H,
    index: Psindex,
    ghost opened: { IsOpened index.rows (H.seen shelf) } by { IsOpened-prop index.rows (H.seen shelf) },
}

impl<H: Shelf + Drop> OpenIndex<H> {
    pub fn new(
        alloc: Global,
        mut shelf: H,
        schema: &Schema,
        place: u8,
    ) -> Result<OpenIndex<H>, StoreFault>
        requires live { IsTrue (H.seen shelf).live }
        requires known { place < length schema.now.indexes }
    {
        let index = Psindex::open(alloc, &mut shelf, schema, place)?;
        Ok(OpenIndex { shelf, index })
    }

    /// Adds an entry, unless its lengths aren't those of the index: then the answer is false.
    pub fn add(&mut self, entry: &Entry) -> Result<bool, AddFault>
        requires live { IsTrue (H.seen self.old.shelf).live }
        requires takes { IsTrue ((H.seen self.old.shelf).takes self.old.index.rows.set 2) }
    {
        if !self.index.fits(entry) {
            return Ok(false);
        }
        self.index.add(&mut self.shelf, entry)?;
        Ok(true)
    }

    pub fn remove(&mut self, key: &[u8]) -> Result<bool, PageFault>
        requires { IsTrue (H.seen self.old.shelf).live }
    {
        self.index.remove(&mut self.shelf, key)
    }

    pub fn entries_after(&mut self, key: Option<&[u8]>) -> Result<Option<Entry>, PageFault>
        requires { IsTrue (H.seen self.old.shelf).live }
    {
        self.index.entries_after(&mut self.shelf, key)
    }

    pub fn entries_before(&mut self, key: &[u8]) -> Result<Option<Entry>, PageFault>
        requires { IsTrue (H.seen self.old.shelf).live }
    {
        self.index.entries_before(&mut self.shelf, key)
    }

    /// Moves an entry to another key, unless the lengths of the new one aren't those of the index: then the answer is false.
    pub fn move_entry(&mut self, old: &[u8], entry: &Entry) -> Result<bool, AddFault>
        requires live { IsTrue (H.seen self.old.shelf).live }
        requires takes { IsTrue ((H.seen self.old.shelf).takes self.old.index.rows.set 2) }
    {
        if !self.index.fits(entry) {
            return Ok(false);
        }
        self.index.move_entry(&mut self.shelf, old, entry)?;
        Ok(true)
    }

    pub fn heal(&mut self, key: &[u8], number: u16, addr: u32) -> Result<bool, PageFault>
        requires { IsTrue (H.seen self.old.shelf).live }
    {
        self.index.heal(&mut self.shelf, key, number, addr)
    }

    /// The shelf, on which another may be opened.
    pub fn into_shelf(self) -> H {
        let OpenIndex { shelf, index: _ } = self;
        shelf
    }

    /// The shelf and the index, whose entries a list on the shelf resolves.
    pub fn into_parts(self) -> (H, Psindex) {
        let OpenIndex { shelf, index } = self;
        (shelf, index)
    }
}
