// The way down a span, cell by cell.
ghost use Rattle.std.specs.Prelude.{◌≡◌, ◌+◌, ◌≤◌, ◌++◌, false, OnOk, IsErrOf, IsTrue};
ghost use Rattle.free_space.specs.SideCalls.{StandsForSide, StaysOpenOn, Holds, IsTold, OnlyChangesAt, Turns, cells_of};
ghost use Rattle.record_tree.specs.Descending.{CanHangAt, CanPend, ChangesCells, EndsAll, EndsCell, EndsSpanAt, Meets, ReadsSpanTwice, ReadsTwice, fate_of};
ghost use Rattle.record_walk.specs.Side.{alone};

use free_space::SideCells;
use hal_base::{Memory, PageFault, Shelf};
use segment_blocks::Cell;
use std::alloc::Global;

/// What becomes of the cells of a span.
#[derive(Clone, Copy, Debug, PartialEq, Eq)]
pub(crate) enum Fate {
    /// It becomes a hole.
    Hole,
    /// It is marked as copied into the other data set.
    Marked,
}

impl Fate {
    /// Gives the cell at an address its fate.
    fn end<H: Shelf>(self, cells: &mut SideCells, shelf: &mut H, at: u32) -> Result<(), PageFault>
        requires live { IsTrue (H.seen shelf.old).live }
        requires stands { StandsForSide cells.old (H.seen shelf.old) }
        requires cell { Holds cells.old (H.seen shelf.old) at (λ cell. cell.copied ≡ false) }
        ensures ended { OnOk result (Turns cells.old cells.new (H.seen shelf.old) (H.seen shelf.new) (EndsCell (fate_of self) at)) }
        ensures stays { StaysOpenOn cells.old cells.new (H.seen shelf.new) }
        ensures few { (H.seen shelf.new).fetches ≤ (H.seen shelf.old).fetches + 1 }
        ensures leaves { OnlyChangesAt cells.old at (H.steady shelf.old shelf.new) (IsErrOf result PageFault.Failed) (H.seen shelf.old) (H.seen shelf.new) }
        ensures room { IsErrOf result PageFault.NoRoom → ⊥ }
    {
        match self {
            Fate::Hole => cells.give_back(shelf, at),
            Fate::Marked => cells.mark_copied(shelf, at),
        }
    }
}

/// The next twin as the walk sees it: what a root of PHIDAM has there means nothing.
pub(crate) fn next_twin(cell: &Cell) -> u32
    ensures { result ≡ (alone cell.now).twin }
{
    if cell.code == 1 { 0 } else { cell.twin }
}

/// Addresses that are still to be met. 0 is none.
fn put_off(pending: &mut Vec<u32>, addresses: &[u32]) -> Result<(), Memory>
    ensures { OnOk result (pending.new.items ≡ pending.old.items ++ addresses.now) }
{
    pending.extend_from_slice(addresses)?;
    Ok(())
}

/// A descent through the cells that hang from pending addresses: the last one is met first.
#[derive(Debug, Drop)]
struct Descent {
    pending: Vec<u32>,
    fate: Fate,
}

impl Descent {
    /// Meets the cell at an address: those to which it leads are put off, and its fate comes.
    fn meet<H: Shelf>(
        &mut self,
        cells: &mut SideCells,
        shelf: &mut H,
        at: u32,
    ) -> Result<(), PageFault>
        requires live { IsTrue (H.seen shelf.old).live }
        requires stands { StandsForSide cells.old (H.seen shelf.old) }
        requires cell { Holds cells.old (H.seen shelf.old) at (λ cell. cell.copied ≡ false) }
        ensures met { OnOk result (Turns cells.old cells.new (H.seen shelf.old) (H.seen shelf.new) (Meets (fate_of self.old.fate) at self.old.pending.items self.new.pending.items)) }
        ensures same { self.new.fate ≡ self.old.fate }
        ensures few { (H.seen shelf.new).fetches ≤ (H.seen shelf.old).fetches + 2 }
        ensures stays { StaysOpenOn cells.old cells.new (H.seen shelf.new) }
        ensures leaves { ChangesCells cells.old (H.steady shelf.old shelf.new) (IsErrOf result PageFault.Failed) (H.seen shelf.old) (H.seen shelf.new) }
        ensures room { IsErrOf result PageFault.NoRoom → ⊥ }
    {
        let cell = cells.cell(shelf, at)?;
        put_off(&mut self.pending, &[next_twin(&cell)])?;
        put_off(&mut self.pending, cell.children.as_slice())?;
        self.fate.end(cells, shelf, at)
    }

    /// Meets all cells that hang from the pending addresses. There are fewer addresses than the loop has turns, so that
    /// only blocks which aren't a side's get an end there.
    fn finish<H: Shelf>(&mut self, cells: &mut SideCells, shelf: &mut H) -> Result<(), PageFault>
        requires live { IsTrue (H.seen shelf.old).live }
        requires stands { StandsForSide cells.old (H.seen shelf.old) }
        requires pend { IsTold cells.old (H.seen shelf.old) → CanPend (cells_of cells.old (H.seen shelf.old)) self.old.pending.items }
        ensures finished { OnOk result (Turns cells.old cells.new (H.seen shelf.old) (H.seen shelf.new) (EndsAll (fate_of self.old.fate) self.old.pending.items)) }
        ensures few { ReadsTwice cells.old self.old.pending.items (H.seen shelf.old) (H.seen shelf.new) }
        ensures stays { StaysOpenOn cells.old cells.new (H.seen shelf.new) }
        ensures leaves { ChangesCells cells.old (H.steady shelf.old shelf.new) (IsErrOf result PageFault.Failed) (H.seen shelf.old) (H.seen shelf.new) }
        ensures room { IsErrOf result PageFault.NoRoom → ⊥ }
    {
        for _ in 0..u32::MAX {
            let Some(at) = self.pending.pop() else {
                return Ok(());
            };
            if at == 0 {
                continue;
            }
            self.meet(cells, shelf, at)?;
        }
        Err(PageFault::Memory)
    }
}

/// Gives the cell at an address its fate, and all those below it. Each cell is read before.
pub(crate) fn end_span<H: Shelf>(
    alloc: Global,
    cells: &mut SideCells,
    shelf: &mut H,
    at: u32,
    fate: Fate,
) -> Result<(), PageFault>
    requires live { IsTrue (H.seen shelf.old).live }
    requires stands { StandsForSide cells.old (H.seen shelf.old) }
    requires hangs { IsTold cells.old (H.seen shelf.old) → CanHangAt (cells_of cells.old (H.seen shelf.old)) at }
    ensures ended { OnOk result (Turns cells.old cells.new (H.seen shelf.old) (H.seen shelf.new) (EndsSpanAt (fate_of fate) at)) }
    ensures few { ReadsSpanTwice cells.old at (H.seen shelf.old) (H.seen shelf.new) }
    ensures stays { StaysOpenOn cells.old cells.new (H.seen shelf.new) }
    ensures leaves { ChangesCells cells.old (H.steady shelf.old shelf.new) (IsErrOf result PageFault.Failed) (H.seen shelf.old) (H.seen shelf.new) }
    ensures room { IsErrOf result PageFault.NoRoom → ⊥ }
{
    let cell = cells.cell(shelf, at)?;
    let mut descent = Descent {
        pending: Vec::new(alloc),
        fate,
    };
    put_off(&mut descent.pending, cell.children.as_slice())?;
    fate.end(cells, shelf, at)?;
    descent.finish(cells, shelf)
}
