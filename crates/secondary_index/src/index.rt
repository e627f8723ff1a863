// A secondary index, over any shelf.
ghost use Rattle.std.specs.Prelude.{◌≡◌, ◌↔◌, ◌<◌, ◌≤◌, ℕ, length, IfOk, IfSome, IsErrOf, IsTrue};
ghost use Rattle.hal_base.specs.ShelfCalls.{OnlyReads};
ghost use Rattle.keyed_sets.specs.Calls.{IsOpened};
ghost use Rattle.secondary_index.specs.Entries.{index_set, IsShape, HasTarget, BreaksIndex, FitsIndex};

use crate::Entry;
use crate::lengths::{shape_of, target_of};
use hal_base::{SetId, Shelf, StoreFault};
use hal_schema::Schema;
use keyed_sets::{KeyedSet, RowShape};
use std::alloc::Global;

/// A secondary index in the pages of its data set: entries sorted by key, each key once. It is opened anew where the shelf
/// went back to its last commit, and where another object changed the pages. IMS: PSINDEX.
#[derive(Debug, Drop)]
pub struct Psindex {
    pub(crate) alloc: Global,
    pub(crate) rows: KeyedSet,
    shape: RowShape,
    pub(crate) target: u8,
    ghost shaped: { rows.shape ≡ shape },
    ghost pointer: { 16 ≤ shape.body },
}

impl Psindex {
    /// Opens the index at a place of the definition, from 0. It reads all pages of the data set. `BadTile` names the first
    /// page that isn't one of such rows or whose keys cross those of a page before it, and in it the offset of the first
    /// row that isn't above the one before, 16 where there is none.
    pub fn open<H: Shelf>(
        alloc: Global,
        shelf: &mut H,
        schema: &Schema,
        place: u8,
    ) -> Result<Psindex, StoreFault>
        requires live { IsTrue (H.seen shelf.old).live }
        requires known { place < length schema.now.indexes }
        ensures opened { IfOk result (λ index. (index.rows.set ≡ index_set place) × IsOpened index.rows (H.seen shelf.new)) }
        ensures shape { IfOk result (λ index. IsShape schema.now place index.rows.shape × HasTarget schema.now place index.target) }
        ensures broken { (page offset : ℕ) → result ≡ Err (StoreFault.BadTile page offset) → IfSome ((H.seen shelf.old).pages (index_set place)) (BreaksIndex schema.now place page offset) }
        ensures leaves { OnlyReads (length ((H.seen shelf.old).places (index_set place))) (H.steady shelf.old shelf.new) (IsErrOf result StoreFault.Failed) (H.seen shelf.old) (H.seen shelf.new) }
    {
        let set = SetId {
            part: 32768 + place as u16,
            number: 0,
            letter: b'A',
        };
        let shape = shape_of(schema, place);
        let target = target_of(schema, place);
        let rows = KeyedSet::open(alloc, shelf, set, shape.key, shape.body)?;
        Ok(Psindex {
            alloc,
            rows,
            shape,
            target,
        })
    }

    /// Whether an entry's key and root key have the lengths that the definition gives them.
    pub fn fits(&self, entry: &Entry) -> bool
        ensures { IsTrue result ↔ FitsIndex self.now.rows entry.now }
    {
        entry.key.len() == usize::from(self.shape.key)
            && entry.root.len() == usize::from(self.shape.body) - 16
    }
}
