// The cell of a new row.
ghost use Rattle.std.specs.Prelude.{◌≤◌, ◌+◌, ◌≡◌, ◌<◌, length, unwrap_or, IfOk, IsErrOf, IsTrue, ⊤};
ghost use Rattle.hal_base.specs.declared.place.Ilk.{Ilk as IlkOf};
ghost use Rattle.free_space.specs.Map.{Alters};
ghost use Rattle.free_space.specs.SideCalls.{StandsForSide, Holds, OnlyChangesAt, Turns};
ghost use Rattle.record_tree.specs.Changing.{ChangesSide, TakesSide, home_name};
ghost use Rattle.record_tree.specs.Placing.{FitsType};
ghost use Rattle.record_tree.specs.Standing.{StandsForRecords};
ghost use Rattle.record_tree.specs.Storing.{StoresCell, RowHasRoom, IsStep, room_need, nameless, segment_for, row_cell, named_cell, set_name};

use crate::Records;
use crate::new_row::NewRow;
use hal_base::{Bytes, Ilk, List, Memory, PageFault, Shelf};
use hal_schema::{Schema, schemas_are_kept};
use record_walk::child_places;
use segment_blocks::Cell;
use std::alloc::Global;

const NAMELESS: Ilk = Ilk {
    addr: 0,
    part: 0,
    number: 0,
};

/// The cell of a new row, which leads to a next twin and has no children.
fn row_cell(alloc: Global, schema: &Schema, new: NewRow, twin: u32) -> Result<Cell, Memory>
    requires fits { FitsType schema.now (segment_for new) }
    ensures { IfOk result (λ cell. cell ≡ row_cell schema.now (record (segment_for new) { name = unwrap_or new.name nameless }) twin) }
{
    child_places();
    let kinds = usize::from(schema.shape(new.code).children);
    Ok(Cell {
        copied: false,
        code: new.code,
        name: new.name.unwrap_or(NAMELESS),
        twin,
        children: List::from_slice(alloc, &[0; 255][..kinds])?,
        content: new.content,
    })
}

impl Records {
    /// The name of a row that is named by its home.
    pub(crate) fn home_name(&self, at: u32) -> Ilk
        ensures { result ≡ home_name self.now at }
    {
        Ilk {
            addr: at,
            part: self.first.part,
            number: self.first.number,
        }
    }

    /// Names the cell at an address by it, and answers that address.
    fn name_by_home<H: Shelf>(&self, shelf: &mut H, at: u32) -> Result<u32, PageFault>
        requires live { IsTrue (H.seen shelf.old).live }
        requires stands { StandsForSide self.now.cells (H.seen shelf.old) }
        requires cell { Holds self.now.cells (H.seen shelf.old) at (λ _. ⊤) }
        ensures same { IfOk result (λ same. same ≡ at) }
        ensures named { IfOk result (λ _. Turns self.now.cells self.now.cells (H.seen shelf.old) (H.seen shelf.new) (Alters at (set_name (home_name self.now at)))) }
        ensures stands { StandsForSide self.now.cells (H.seen shelf.new) }
        ensures few { (H.seen shelf.new).fetches ≤ (H.seen shelf.old).fetches + 1 }
        ensures leaves { OnlyChangesAt self.now.cells at (H.steady shelf.old shelf.new) (IsErrOf result PageFault.Failed) (H.seen shelf.old) (H.seen shelf.new) }
        ensures room { IsErrOf result PageFault.NoRoom → ⊥ }
    {
        self.cells.set_name(shelf, at, self.home_name(at))?;
        Ok(at)
    }

    /// Stores the cell of a new row, to which no pointer leads yet, and answers its home.
    pub(crate) fn store<H: Shelf>(
        &mut self,
        shelf: &mut H,
        new: NewRow,
        twin: u32,
    ) -> Result<u32, PageFault>
        requires live { IsTrue (H.seen shelf.old).live }
        requires stands { StandsForRecords self.old (H.seen shelf.old) }
        requires takes { TakesSide self.old (H.seen shelf.old) }
        requires fits { FitsType self.old.schema (segment_for new) }
        requires step { IsStep new.room }
        ensures stored { IfOk result (λ at. StoresCell self.old self.new (named_cell self.old new twin at) (H.seen shelf.old) (H.seen shelf.new) at) }
        ensures room { IfOk result (RowHasRoom new.room self.old (segment_for new) (H.seen shelf.old) (H.seen shelf.new)) }
        ensures no_room { IsErrOf result PageFault.NoRoom → length (H.seen shelf.old).free < room_need new.room }
        ensures few { (H.seen shelf.new).fetches ≤ (H.seen shelf.old).fetches + 2 }
        ensures leaves { ChangesSide (room_need new.room) self.old (H.steady shelf.old shelf.new) (IsErrOf result PageFault.Failed) (H.seen shelf.old) (H.seen shelf.new) }
    {
        child_places();
        schemas_are_kept();
        let (name, room) = (new.name, new.room);
        let cell = row_cell(self.alloc, &self.schema, new, twin)?;
        let at = self.hold(shelf, &cell, room)?;
        match name {
            Some(_) => Ok(at),
            None => self.name_by_home(shelf, at),
        }
    }
}
