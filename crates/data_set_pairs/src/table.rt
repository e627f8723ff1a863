// The table of a volume's pages and free blocks.
ghost use Rattle.std.specs.Prelude.{◌≡◌, ◌+◌, ◌-◌, ◌*◌, ◌^◌, ◌<◌, ◌≤◌, [], ◌∷◌, ℕ, length, vec_len, take, insert, reverse, IfOk, OnOk, IfSome, IfNone, IsSome};
ghost use Rattle.std.specs.Vec.{vec_capacity};
ghost use Rattle.std.specs.List.Sorted.{IsNonDecreasingBy};
ghost use Rattle.data_set_pairs.specs.Table.{set_rank, IsFront};
ghost use Rattle.data_set_pairs.specs.Kept.{last_pages, last_free};

use crate::place::{PagePlace, end_of};
use hal_base::Memory;
use std::alloc::Global;

/// The pages in the order of their data sets and page numbers, and the numbers of the free blocks, falling.
#[derive(Debug, Drop)]
pub struct Table {
    pub pages: Vec<PagePlace>,
    pub free: Vec<u32>,
}

impl Table {
    pub(crate) fn new(alloc: Global) -> Table
        ensures pages { result.pages.items ≡ [] }
        ensures free { result.free.items ≡ [] }
    {
        Table {
            pages: Vec::new(alloc),
            free: Vec::new(alloc),
        }
    }

    fn copy(&self) -> Result<Table, Memory>
        ensures pages { IfOk result (λ copy. copy.pages.items ≡ self.now.pages.items) }
        ensures free { IfOk result (λ copy. copy.free.items ≡ self.now.free.items) }
    {
        let alloc = *self.pages.allocator();
        Ok(Table {
            pages: Vec::from_slice(alloc, &self.pages)?,
            free: Vec::from_slice(alloc, &self.free)?,
        })
    }

    pub(crate) fn least_free(&self) -> Option<u32>
        ensures some { IfSome result (λ n. reverse self.now.free.items ≡ n ∷ reverse (take (length self.now.free.items - 1) self.now.free.items)) }
        ensures none { IfNone result (reverse self.now.free.items ≡ []) }
    {
        self.free.last().copied()
    }

    /// Adds a page, for which there is room, behind those of its data set, and takes the least free block away.
    pub(crate) fn add(&mut self, place: PagePlace)
        requires order { IsNonDecreasingBy (λ p. set_rank p.set) self.old.pages.items }
        requires room { vec_len self.old.pages < vec_capacity self.old.pages }
        ensures pages { (end : ℕ) × IsFront place.set self.old.pages.items end × (self.new.pages.items ≡ insert self.old.pages.items end place) }
        ensures free { self.new.free.items ≡ take (length self.old.free.items - 1) self.old.free.items }
    {
        let end = end_of(&self.pages, place.set);
        let _ = self.pages.insert(end, place);
        let _ = self.free.pop();
    }
}

/// Keeps the table of the last commit aside, where that isn't done yet.
pub(crate) fn keep(table: &Table, kept: &mut Option<Table>) -> Result<(), Memory>
    ensures there { OnOk result (IsSome kept.new) }
    ensures pages { last_pages kept.new table.now ≡ last_pages kept.old table.now }
    ensures free { last_free kept.new table.now ≡ last_free kept.old table.now }
{
    if kept.is_none() {
        *kept = Some(table.copy()?);
    }
    Ok(())
}

/// Makes room for one page more, and for going back to the last commit.
pub(crate) fn make_room(table: &mut Table, kept: &mut Option<Table>) -> Result<(), Memory>
    ensures pages { table.new.pages.items ≡ table.old.pages.items }
    ensures free { table.new.free.items ≡ table.old.free.items }
    ensures room { OnOk result (vec_len table.new.pages < vec_capacity table.new.pages) }
    ensures there { OnOk result (IsSome kept.new) }
    ensures last_pages { last_pages kept.new table.new ≡ last_pages kept.old table.old }
    ensures last_free { last_free kept.new table.new ≡ last_free kept.old table.old }
{
    keep(table, kept)?;
    table.pages.reserve(1)?;
    Ok(())
}
