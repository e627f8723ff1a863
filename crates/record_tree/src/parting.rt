// A row is taken out of its chain of twins: the pointer that led to it is set to its next twin.
ghost use Rattle.std.specs.Prelude.{◌≡◌, ◌≢◌, ◌+◌, ◌≤◌, None, Some, OnOk, IsErrOf, IsTrue};
ghost use Rattle.free_space.specs.SideCalls.{Finds};
ghost use Rattle.record_walk.specs.Orders.{child_place};
ghost use Rattle.record_walk.specs.Pointers.{Behind, Below, Root};
ghost use Rattle.record_tree.specs.Changing.{ChangesSide};
ghost use Rattle.record_tree.specs.Cutting.{LeadsTo};
ghost use Rattle.record_tree.specs.Descending.{PartsFrom};
ghost use Rattle.record_tree.specs.Finding.{first_child};
ghost use Rattle.record_tree.specs.Placing.{pointer_from};
ghost use Rattle.record_tree.specs.Standing.{StandsForRecords, HoldsRow};

use crate::descent::next_twin;
use crate::roots::home_in;
use crate::sides::child_place;
use crate::{Place, Records};
use free_space::{no_side_cell_is_at_zero, others_leave_a_side_open};
use hal_base::{PageFault, Shelf};
use hal_schema::Schema;
use segment_blocks::Cell;

/// The key in the content of a root, none where the content is too short.
fn root_key<'a>(schema: &Schema, content: &'a [u8]) -> Option<&'a [u8]> {
    let key = schema.types.as_slice().first()?.key?;
    let start = usize::from(key.start);
    if start == 0 {
        return None;
    }
    content.get(start - 1..start - 1 + usize::from(key.bytes))
}

impl Records {
    /// Sets the twin before a row past it.
    fn part_behind<H: Shelf>(
        &mut self,
        shelf: &mut H,
        prior: u32,
        at: u32,
        cell: &Cell,
    ) -> Result<(), PageFault>
        requires live { IsTrue (H.seen shelf.old).live }
        requires stands { StandsForRecords self.old (H.seen shelf.old) }
        requires cell { Finds self.old.cells (H.seen shelf.old) at (Some cell.now) }
        requires prior { HoldsRow self.old (H.seen shelf.old) prior (λ cell. (cell.code ≢ 1) × (cell.twin ≡ at)) }
        ensures parted { OnOk result (PartsFrom self.old self.new (Behind prior) at cell.now (H.seen shelf.old) (H.seen shelf.new)) }
        ensures few { (H.seen shelf.new).fetches ≤ (H.seen shelf.old).fetches + 1 }
        ensures leaves { ChangesSide 0 self.old (H.steady shelf.old shelf.new) (IsErrOf result PageFault.Failed) (H.seen shelf.old) (H.seen shelf.new) }
        ensures room { IsErrOf result PageFault.NoRoom → ⊥ }
    {
        self.cells.set_twin(shelf, prior, next_twin(cell))
    }

    /// Sets the first child of its type below a row past a row.
    fn part_below<H: Shelf>(
        &mut self,
        shelf: &mut H,
        above: u32,
        at: u32,
        cell: &Cell,
    ) -> Result<(), PageFault>
        requires live { IsTrue (H.seen shelf.old).live }
        requires stands { StandsForRecords self.old (H.seen shelf.old) }
        requires cell { Finds self.old.cells (H.seen shelf.old) at (Some cell.now) }
        requires above { HoldsRow self.old (H.seen shelf.old) above (λ above. first_child self.old.schema cell.now.code above ≡ at) }
        ensures parted { OnOk result (PartsFrom self.old self.new (Below above (child_place self.old.schema.types cell.now.code)) at cell.now
            (H.seen shelf.old) (H.seen shelf.new)) }
        ensures few { (H.seen shelf.new).fetches ≤ (H.seen shelf.old).fetches + 1 }
        ensures leaves { ChangesSide 0 self.old (H.steady shelf.old shelf.new) (IsErrOf result PageFault.Failed) (H.seen shelf.old) (H.seen shelf.new) }
        ensures room { IsErrOf result PageFault.NoRoom → ⊥ }
    {
        no_side_cell_is_at_zero();
        let types = self.schema.types.as_slice();
        if cell.code == 0 || usize::from(cell.code) > types.len() {
            return Err(PageFault::Memory);
        }
        let place = child_place(types, cell.code);
        self.cells
            .set_child(shelf, above, place as u8, next_twin(cell))
    }

    /// Takes the row of a root out of the root set, if it leads to that root.
    fn part_root<H: Shelf>(&mut self, shelf: &mut H, at: u32, cell: &Cell) -> Result<(), PageFault>
        requires live { IsTrue (H.seen shelf.old).live }
        requires stands { StandsForRecords self.old (H.seen shelf.old) }
        requires cell { Finds self.old.cells (H.seen shelf.old) at (Some cell.now) }
        requires root { HoldsRow self.old (H.seen shelf.old) at (λ cell. cell.code ≡ 1) }
        ensures parted { OnOk result (PartsFrom self.old self.new (Root 0) at cell.now (H.seen shelf.old) (H.seen shelf.new)) }
        ensures few { (H.seen shelf.new).fetches ≤ (H.seen shelf.old).fetches + 2 }
        ensures leaves { ChangesSide 0 self.old (H.steady shelf.old shelf.new) (IsErrOf result PageFault.Failed) (H.seen shelf.old) (H.seen shelf.new) }
        ensures room { IsErrOf result PageFault.NoRoom → ⊥ }
    {
        others_leave_a_side_open();
        let Some(key) = root_key(&self.schema, cell.content.as_slice()) else {
            return Err(PageFault::Memory);
        };
        let Some(body) = self.roots.get(shelf, key)? else {
            return Err(PageFault::Memory);
        };
        if home_in(&body) != at {
            return Err(PageFault::Memory);
        }
        if self.roots.remove(shelf, key)? {
            Ok(())
        } else {
            Err(PageFault::Memory)
        }
    }

    /// Sets the pointer that led to a row to its next twin.
    pub(crate) fn part<H: Shelf>(
        &mut self,
        shelf: &mut H,
        place: Place,
        at: u32,
        cell: &Cell,
    ) -> Result<(), PageFault>
        requires live { IsTrue (H.seen shelf.old).live }
        requires stands { StandsForRecords self.old (H.seen shelf.old) }
        requires cell { Finds self.old.cells (H.seen shelf.old) at (Some cell.now) }
        requires leads { LeadsTo self.old (H.seen shelf.old) place at }
        ensures parted { OnOk result (PartsFrom self.old self.new (pointer_from self.old.schema cell.now.code place.parent place.prior) at cell.now
            (H.seen shelf.old) (H.seen shelf.new)) }
        ensures few { (H.seen shelf.new).fetches ≤ (H.seen shelf.old).fetches + 2 }
        ensures leaves { ChangesSide 0 self.old (H.steady shelf.old shelf.new) (IsErrOf result PageFault.Failed) (H.seen shelf.old) (H.seen shelf.new) }
        ensures room { IsErrOf result PageFault.NoRoom → ⊥ }
    {
        let Some(above) = place.parent else {
            return self.part_root(shelf, at, cell);
        };
        match place.prior {
            Some(prior) => self.part_behind(shelf, prior, at, cell),
            None => self.part_below(shelf, above, at, cell),
        }
    }
}
