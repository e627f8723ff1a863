// All rows of a side, in hierarchic sequence.
ghost use Rattle.std.specs.Prelude.{◌≡◌, ◌∷◌, [], ◌++◌, OnOk, IfOk, IsErrOf, IsTrue, ⊤};
ghost use Rattle.std.specs.Option.{option_map};
ghost use Rattle.hal_base.specs.ShelfCalls.{OnlyReads};
ghost use Rattle.free_space.specs.SideCalls.{StandsForSide, Holds, IsTold, cells_of};
ghost use Rattle.keyed_sets.specs.Calls.{IsOpened};
ghost use Rattle.record_tree.specs.Finding.{ListsRows, OnlyReadsSome};
ghost use Rattle.record_tree.specs.Standing.{StandsForRecords};
ghost use Rattle.record_tree.specs.Walking.{CanWait, HasRootHomes, MeetsAll, MeetsRow, waits};

use crate::Records;
use crate::descent::next_twin;
use crate::roots::home_in;
use free_space::SideCells;
use hal_base::{Bytes, Ilk, List, Memory, PageFault, Shelf};
use hal_schema::Row;
use keyed_sets::{KeyedSet, rows_rise};
use std::alloc::Global;

/// A row of a side, and its home.
#[derive(Debug, Drop)]
pub struct HomedRow {
    pub home: u32,
    pub row: Row,
}

/// An address that is still to be met, and the name of the row above what hangs there. The address 0 is none.
#[derive(Clone, Copy, Debug, PartialEq, Eq)]
pub(crate) struct Waiting {
    pub(crate) at: u32,
    pub(crate) parent: Option<Ilk>,
}

/// Lets addresses wait, the first of them above the others.
fn wait(waiting: &mut Vec<Waiting>, addresses: &[u32], parent: Option<Ilk>) -> Result<(), Memory>
    ensures { OnOk result (waiting.new.items ≡ waiting.old.items ++ waits parent addresses.now) }
{
    for done in 0..addresses.len() {
        let at = addresses[addresses.len() - 1 - done];
        waiting.push(Waiting { at, parent })?;
    }
    Ok(())
}

/// A walk through the cells that hang from waiting addresses, of which the last one is met first, and the rows that it met.
#[derive(Debug, Drop)]
pub(crate) struct Walk {
    pub(crate) waiting: Vec<Waiting>,
    pub(crate) rows: List<HomedRow>,
}

impl Walk {
    /// Meets the cell at an address: its row is the next one, and those to which it leads wait, its children above its twin.
    fn meet<H: Shelf>(
        &mut self,
        cells: &SideCells,
        shelf: &mut H,
        next: Waiting,
    ) -> Result<(), PageFault>
        requires live { IsTrue (H.seen shelf.old).live }
        requires stands { StandsForSide cells.now (H.seen shelf.old) }
        requires cell { Holds cells.now (H.seen shelf.old) next.at (λ _. ⊤) }
        ensures met { OnOk result (IsTold cells.now (H.seen shelf.old) → MeetsRow (cells_of cells.now (H.seen shelf.old)) next self.old self.new) }
        ensures stands { StandsForSide cells.now (H.seen shelf.new) }
        ensures leaves { OnlyReads 1 (H.steady shelf.old shelf.new) (IsErrOf result PageFault.Failed) (H.seen shelf.old) (H.seen shelf.new) }
        ensures room { IsErrOf result PageFault.NoRoom → ⊥ }
    {
        let cell = cells.cell(shelf, next.at)?;
        wait(&mut self.waiting, &[next_twin(&cell)], next.parent)?;
        wait(&mut self.waiting, cell.children.as_slice(), Some(cell.name))?;
        self.rows.push(HomedRow {
            home: next.at,
            row: Row {
                name: cell.name,
                code: cell.code,
                parent: next.parent,
                content: cell.content,
            },
        })?;
        Ok(())
    }

    /// Meets all cells that hang from the waiting addresses. No side has more rows than the loop has turns, so that only blocks
    /// which aren't a side's get an end there.
    fn finish<H: Shelf>(&mut self, cells: &SideCells, shelf: &mut H) -> Result<(), PageFault>
        requires live { IsTrue (H.seen shelf.old).live }
        requires stands { StandsForSide cells.now (H.seen shelf.old) }
        requires waits { IsTold cells.now (H.seen shelf.old) → CanWait (cells_of cells.now (H.seen shelf.old)) self.old.waiting.items }
        ensures met { OnOk result (MeetsAll cells.now (H.seen shelf.old) self.old self.new) }
        ensures leaves { OnlyReadsSome (H.steady shelf.old shelf.new) (IsErrOf result PageFault.Failed) (H.seen shelf.old) (H.seen shelf.new) }
        ensures room { IsErrOf result PageFault.NoRoom → ⊥ }
    {
        for _ in 0..u32::MAX {
            let Some(next) = self.waiting.pop() else {
                return Ok(());
            };
            if next.at == 0 {
                continue;
            }
            self.meet(cells, shelf, next)?;
        }
        Err(PageFault::Memory)
    }
}

/// The key of the row before, if there was one.
fn key_before(key: &Option<Bytes>) -> Option<&[u8]>
    ensures { option_map (λ key. key.now) result ≡ key.now }
{
    match key {
        Some(key) => Some(key.as_slice()),
        None => None,
    }
}

/// The homes of all roots, by their keys.
fn root_homes<H: Shelf>(
    alloc: Global,
    roots: &mut KeyedSet,
    shelf: &mut H,
) -> Result<Vec<u32>, PageFault>
    requires live { IsTrue (H.seen shelf.old).live }
    requires opened { IsOpened roots.old (H.seen shelf.old) }
    requires body { roots.old.shape.body ≡ 4 }
    ensures homes { IfOk result (λ homes. HasRootHomes roots.old (H.seen shelf.old) homes.items) }
    ensures kept { roots.new ≡ roots.old }
    ensures leaves { OnlyReadsSome (H.steady shelf.old shelf.new) (IsErrOf result PageFault.Failed) (H.seen shelf.old) (H.seen shelf.new) }
    ensures room { IsErrOf result PageFault.NoRoom → ⊥ }
{
    rows_rise();
    let mut homes = Vec::new(alloc);
    let mut key = None;
    for _ in 0..u32::MAX {
        let Some((next, body)) = roots.next_after(shelf, key_before(&key))? else {
            return Ok(homes);
        };
        add_home(&mut homes, home_in(&body))?;
        key = Some(next);
    }
    Err(PageFault::Memory)
}

fn add_home(homes: &mut Vec<u32>, home: u32) -> Result<(), Memory>
    ensures { OnOk result (homes.new.items ≡ homes.old.items ++ home ∷ []) }
{
    homes.push(home)?;
    Ok(())
}

impl Records {
    /// All rows of the side in hierarchic sequence, each with its home. It reads each cell once.
    pub fn walk<H: Shelf>(&mut self, shelf: &mut H) -> Result<List<HomedRow>, PageFault>
        requires live { IsTrue (H.seen shelf.old).live }
        requires stands { StandsForRecords self.old (H.seen shelf.old) }
        ensures lists { IfOk result (ListsRows self.old (H.seen shelf.old)) }
        ensures kept { (self.new ≡ self.old) × StandsForRecords self.new (H.seen shelf.new) }
        ensures leaves { OnlyReadsSome (H.steady shelf.old shelf.new) (IsErrOf result PageFault.Failed) (H.seen shelf.old) (H.seen shelf.new) }
        ensures room { IsErrOf result PageFault.NoRoom → ⊥ }
    {
        let homes = root_homes(self.alloc, &mut self.roots, shelf)?;
        let mut walk = Walk {
            waiting: Vec::new(self.alloc),
            rows: List::new(self.alloc),
        };
        wait(&mut walk.waiting, &homes, None)?;
        walk.finish(&self.cells, shelf)?;
        Ok(walk.rows)
    }
}
