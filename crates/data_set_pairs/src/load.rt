// What is read of a volume when it is opened.
ghost use Rattle.std.specs.Prelude.{◌≡◌, ◌+◌, ◌⊎◌, ℕ, List, length, reverse, IfOk, IfSome, IsErrOf, IsTrue};
ghost use Rattle.hal_base.specs.Fault.{Rose};
ghost use Rattle.volume_image.specs.Control.{control_count};
ghost use Rattle.volume_image.specs.Pages.{KeepsRule1, KeepsRule2};
ghost use Rattle.data_set_pairs.specs.Stays.{Looks};
ghost use Rattle.data_set_pairs.specs.Table.{IsTable};
ghost use Rattle.data_set_pairs.specs.Volume.{IsLaidOut, BreaksOne, BreaksTwo};

use crate::VolWhy;
use crate::scan::read_table;
use crate::states::{control_count, read_states};
use crate::table::Table;
use hal_base::{Blocks, PartState};
use hal_schema::Schema;
use std::alloc::Global;

/// The states of the partitions and the table of pages.
#[derive(Drop)]
pub(crate) struct Loaded {
    pub states: Vec<PartState>,
    pub table: Table,
}

/// Reads the control blocks, and then the heads of the data blocks.
pub(crate) fn load<B: Blocks>(
    alloc: Global,
    blocks: &mut B,
    schema: &Schema,
) -> Result<Loaded, VolWhy>
    requires live { IsTrue (B.seen blocks.old).live }
    requires number { (B.seen blocks.old).number ≡ control_count schema.now + schema.now.blocks }
    ensures many { IfOk result (λ loaded. length loaded.states.items ≡ length schema.now.parts) }
    ensures table { IfOk result (λ loaded. IsTable (control_count schema.now) (B.seen blocks.old).number loaded.table.pages.items
        (reverse loaded.table.free.items)) }
    ensures laid { IfOk result (λ loaded. IfSome (B.seen blocks.old).list
        (IsLaidOut (length schema.now.indexes) (control_count schema.now) (B.seen blocks.old).number loaded.states.items loaded.table.pages.items
        (reverse loaded.table.free.items))) }
    ensures one { IfOk result (λ loaded. IfSome (B.seen blocks.old).list (λ list. KeepsRule1 schema.now list loaded.states.items)) }
    ensures two { IfOk result (λ loaded. IfSome (B.seen blocks.old).list (λ list. KeepsRule2 schema.now list loaded.states.items)) }
    ensures rule { (rule : ℕ) → IsErrOf result (VolWhy.Damaged rule) → (rule ≡ 1) ⊎ (rule ≡ 2) }
    ensures breaks_one { IsErrOf result (VolWhy.Damaged 1) → IfSome (B.seen blocks.old).list (BreaksOne schema.now) }
    ensures breaks_two { IsErrOf result (VolWhy.Damaged 2) → IfSome (B.seen blocks.old).list (BreaksTwo schema.now) }
    ensures looks { Looks (B.steady blocks.old blocks.new) (B.seen blocks.old) (B.seen blocks.new) }
    ensures failed { IsErrOf result VolWhy.Failed → Rose (B.seen blocks.old).disk_faults (B.seen blocks.new).disk_faults }
    ensures live { (result ≡ Err VolWhy.Failed → ⊥) → IsTrue (B.seen blocks.new).live }
{
    let states = read_states(alloc, blocks, schema)?;
    let control = u32::from(control_count(schema));
    let indexes = schema.indexes.len() as u16;
    match read_table(alloc, blocks, control, indexes, &states) {
        Ok(table) => Ok(Loaded { states, table }),
        Err(why) => Err(why),
    }
}
