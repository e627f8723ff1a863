// A new root: its cell is stored, and then a row of the root set leads to it.
ghost use Rattle.std.specs.Prelude.{◌≤◌, ◌≡◌, ◌<◌, ◌+◌, None, length, IfOk, IsErrOf, IsTrue};
ghost use Rattle.record_walk.specs.Side.{key_of};
ghost use Rattle.record_tree.specs.Changing.{ChangesSide, RowComes, RowIsIn, TakesSide, at_home};
ghost use Rattle.record_tree.specs.Placing.{FitsType, IsNewRoot, unplaced};
ghost use Rattle.record_tree.specs.Standing.{StandsForRecords};
ghost use Rattle.record_tree.specs.Storing.{ComesAsRoot, RowHasRoom, IsStep, room_need, segment_for};

use crate::Records;
use crate::new_row::NewRow;
use free_space::{no_side_cell_is_at_zero, others_leave_a_side_open};
use hal_base::{Bytes, PageFault, Shelf};
use hal_schema::{Schema, portion, schemas_are_kept};
use keyed_sets::rows_rise;
use record_walk::{
    changed_sides, first_roots_are_inserted, new_segments_are_listed, roots_go_by_key,
    roots_go_by_rows, rows_come_and_go,
};

/// The key of a root of this content.
fn root_key<'a>(schema: &Schema, content: &'a [u8]) -> &'a [u8]
    ensures { result.now ≡ key_of schema.now (unplaced 1 content.now) }
{
    match schema.types.as_slice().first() {
        None => &[],
        Some(root) => match root.key {
            None => &[],
            Some(key) => portion(content, key.start, key.bytes),
        },
    }
}

impl Records {
    /// Adds a root, and answers its home.
    pub(crate) fn add_root<H: Shelf>(
        &mut self,
        shelf: &mut H,
        new: NewRow,
    ) -> Result<u32, PageFault>
        requires live { IsTrue (H.seen shelf.old).live }
        requires stands { StandsForRecords self.old (H.seen shelf.old) }
        requires takes { TakesSide self.old (H.seen shelf.old) }
        requires fits { FitsType self.old.schema (segment_for new) }
        requires step { IsStep new.room }
        requires root { IsNewRoot self.old (H.seen shelf.old) (segment_for new) }
        ensures comes { IfOk result (ComesAsRoot self.old self.new new (H.seen shelf.old) (H.seen shelf.new)) }
        ensures room { IfOk result (RowHasRoom new.room self.old (segment_for new) (H.seen shelf.old) (H.seen shelf.new)) }
        ensures no_room { IsErrOf result PageFault.NoRoom → length (H.seen shelf.old).free < room_need new.room + 1 }
        ensures few { (H.seen shelf.new).fetches ≤ (H.seen shelf.old).fetches + 4 }
        ensures leaves { ChangesSide (room_need new.room + 1) self.old (H.steady shelf.old shelf.new) (IsErrOf result PageFault.Failed) (H.seen shelf.old) (H.seen shelf.new) }
    {
        changed_sides();
        first_roots_are_inserted();
        new_segments_are_listed();
        no_side_cell_is_at_zero();
        others_leave_a_side_open();
        roots_go_by_key();
        roots_go_by_rows();
        rows_come_and_go();
        rows_rise();
        schemas_are_kept();
        let key = Bytes::from_slice(self.alloc, root_key(&self.schema, new.content.as_slice()))?;
        let at = self.store(shelf, new, 0)?;
        self.roots.put(shelf, key.as_slice(), &at.to_be_bytes())?;
        Ok(at)
    }
}
