// A partition's state, set.
ghost use Rattle.std.specs.Prelude.{◌≡◌, ◌+◌, ◌*◌, ◌/◌, ◌%◌, ◌<◌, ◌≤◌, List, [], length, drop, slice_index_or, slice_set, IfSome, OnOk, OnErr, IsTrue};
ghost use Rattle.std.specs.Option.{option_map};
ghost use Rattle.hal_base.specs.Fault.{HasCauseFor};
ghost use Rattle.volume_image.specs.Control.{control_row, cursor_bytes};
ghost use Rattle.data_set_pairs.specs.Stays.{Stays};
ghost use Rattle.data_set_pairs.specs.Image.{DataKnown, DataNumbered};
ghost use Rattle.data_set_pairs.specs.Kept.{held, last_held};
ghost use Rattle.data_set_pairs.specs.Row.{with_row, KeepsNumber, RaisesNumber};
ghost use Rattle.data_set_pairs.specs.Leaving.{LeavesBehind};
ghost use Rattle.data_set_pairs.specs.Shelf.{view};
ghost use Rattle.hal_base.specs.ShelfCalls.{SameShelf};

use crate::Volume;
use crate::change::{Change, plan};
use crate::fault::VolWhy;
use crate::kept::{put_states, put_table};
use hal_base::{Blocks, PartState, StageFault};

impl<B: Blocks> Volume<B> {
    /// Sets the state of the partition at a place, and stages its row. Under the new states each data block must be free
    /// or live, and the pages of each data set numbered from 0 on; blocks of a number that the partition has left behind
    /// become free. The heads of the data blocks are read only where the partition is another one or its number is lower. Over
    /// blocks that tell nothing, states under which what is read then isn't so are answered as want of memory.
    pub fn set_state(&mut self, place: u16, state: &PartState) -> Result<(), StageFault>
        requires live { IsTrue (B.seen self.old.blocks).live }
        requires place { place < length self.old.states.items }
        requires short { length (cursor_bytes state.now.cursor) ≤ 120 }
        requires known { DataKnown self.old.indexes self.old.control (slice_set self.old.states.items place state.now) (B.seen self.old.blocks).list }
        requires numbered { DataNumbered self.old.indexes self.old.control (slice_set self.old.states.items place state.now) (B.seen self.old.blocks).list }
        ensures row { OnOk result ((B.seen self.new.blocks).list
            ≡ option_map (λ list. slice_set list (place / 32)
            (with_row (place % 32) (control_row state.now) (slice_index_or list (place / 32) []))) (B.seen self.old.blocks).list) }
        ensures states { OnOk result (self.new.states.items ≡ slice_set self.old.states.items place state.now) }
        ensures of { (self.new.control ≡ self.old.control) × (self.new.indexes ≡ self.old.indexes) }
        ensures same { OnOk result (KeepsNumber self.old.states.items place state.now
            → SameShelf (view self.old.indexes self.old.states.items self.old.table (B.seen self.old.blocks)) (view self.new.indexes
            self.new.states.items self.new.table (B.seen self.new.blocks))) }
        ensures left { OnOk result (RaisesNumber self.old.states.items place state.now
            → LeavesBehind self.new.states.items (view self.old.indexes self.old.states.items self.old.table (B.seen self.old.blocks)) (view
            self.new.indexes self.new.states.items self.new.table (B.seen self.new.blocks))) }
        ensures unchanged { OnErr result ((B.seen self.new.blocks).list ≡ (B.seen self.old.blocks).list) }
        ensures held { OnErr result (held self.new.control self.new.indexes self.new.states self.new.table
            ≡ held self.old.control self.old.indexes self.old.states self.old.table) }
        ensures kept { last_held self.new.control self.new.indexes self.new.kept_states self.new.states self.new.kept_table self.new.table
            ≡ last_held self.old.control self.old.indexes self.old.kept_states self.old.states self.old.kept_table self.old.table }
        ensures stays { Stays (B.steady self.old.blocks self.new.blocks) (B.seen self.old.blocks) (B.seen self.new.blocks) }
        ensures cause { HasCauseFor (B.seen self.old.blocks).disk_faults (B.seen self.new.blocks).disk_faults result StageFault.Failed }
        ensures live { (result ≡ Err StageFault.Failed → ⊥) → IsTrue (B.seen self.new.blocks).live }
    {
        let number = u32::from(place / 32);
        let planned = plan(
            &mut self.blocks,
            self.control,
            self.indexes,
            &self.states,
            &self.table,
            place,
            state,
        );
        let change = match planned {
            Ok(change) => change,
            Err(VolWhy::Failed) => return Err(StageFault::Failed),
            Err(_) => return Err(StageFault::Memory),
        };
        let Change {
            states,
            table,
            block,
        } = change;
        if let Err(fault) = self.blocks.stage(number, &block) {
            return Err(fault);
        }
        put_states(&mut self.states, states, &mut self.kept_states);
        put_table(&mut self.table, table, &mut self.kept_table);
        Ok(())
    }
}
