// A partition's state, changed.
ghost use Rattle.std.specs.Prelude.{◌≡◌, ◌+◌, ◌*◌, ◌/◌, ◌%◌, ◌<◌, ◌≤◌, ℕ, List, [], length, reverse, drop, slice_index_or, slice_set, IfOk, IfSome, IfNone, OnOk, OnErr, IsErrOf, IsSomeAnd, IsTrue, ◌↔◌, None};
ghost use Rattle.std.specs.Option.{option_map};
ghost use Rattle.hal_base.specs.Fault.{HasCauseFor, Rose};
ghost use Rattle.volume_image.specs.Control.{control_row, cursor_bytes};
ghost use Rattle.data_set_pairs.specs.Stays.{Looks};
ghost use Rattle.data_set_pairs.specs.Table.{IsTable};
ghost use Rattle.data_set_pairs.specs.Image.{are_known, AreNumbered, TableStands};
ghost use Rattle.data_set_pairs.specs.Row.{with_row, KeepsNumber, RaisesNumber};
ghost use Rattle.data_set_pairs.specs.Leaving.{TakesOut};

use crate::VolWhy;
use crate::leave::without_left;
use crate::look::look;
use crate::scan::read_table;
use crate::table::Table;
use hal_base::{BLOCK, Blocks, PartState};
use std::alloc::Global;
use volume_image::{ROW, row_of};

/// What a change of a partition's state comes to: the states, the table of pages under them where it is another, and
/// the control block.
#[derive(Drop)]
pub(crate) struct Change {
    pub states: Vec<PartState>,
    pub table: Option<Table>,
    pub block: [u8; BLOCK],
}

/// Writes the row of a state into its control block.
fn put_row(block: &mut [u8; BLOCK], row: u16, state: &PartState)
    requires row { row < 32 }
    requires short { length (cursor_bytes state.now.cursor) ≤ 120 }
    ensures { block.new ≡ with_row row (control_row state.now) block.old }
{
    let start = usize::from(row) * ROW;
    block[start..start + ROW].copy_from_slice(&row_of(state));
}

fn copy_states(alloc: Global, states: &[PartState]) -> Result<Vec<PartState>, VolWhy>
    ensures states { IfOk result (λ copy. copy.items ≡ states.now) }
    ensures only { (why : VolWhy) → IsErrOf result why → why ≡ VolWhy.Memory }
{
    let mut copy = Vec::new(alloc);
    for state in states {
        copy.push(state.copy()?)?;
    }
    Ok(copy)
}

/// The states with one of them changed.
fn with_state(
    alloc: Global,
    states: &[PartState],
    place: u16,
    state: &PartState,
) -> Result<Vec<PartState>, VolWhy>
    requires { place < length states.now }
    ensures states { IfOk result (λ changed. changed.items ≡ slice_set states.now place state.now) }
    ensures only { (why : VolWhy) → IsErrOf result why → why ≡ VolWhy.Memory }
{
    let mut changed = copy_states(alloc, states)?;
    changed[usize::from(place)] = state.copy()?;
    Ok(changed)
}

/// Whether a state is of the same partition and reorganization number, under which no block becomes free or live.
fn keeps_number(old: &PartState, state: &PartState) -> bool
    ensures { IsTrue result ↔ ((state.now.part ≡ old.now.part) × (state.now.number ≡ old.now.number)) }
{
    state.part == old.part && state.number == old.number
}

/// Whether a state is of the same partition, and of a higher reorganization number.
fn raises_number(old: &PartState, state: &PartState) -> bool
    ensures { IsTrue result ↔ ((state.now.part ≡ old.now.part) × (old.now.number < state.now.number)) }
{
    state.part == old.part && old.number < state.number
}

/// The table of pages under changed states. Where the partition at a place is another, or its number is lower, the heads are
/// read anew.
fn table_under<B: Blocks>(
    blocks: &mut B,
    control: u32,
    indexes: u16,
    table: &Table,
    old: &PartState,
    changed: &Vec<PartState>,
    state: &PartState,
) -> Result<Option<Table>, VolWhy>
    requires live { IsTrue (B.seen blocks.old).live }
    requires number { control ≤ (B.seen blocks.old).number }
    ensures same { IfOk result (λ other. IfNone other ((state.now.part ≡ old.now.part) × (state.now.number ≡ old.now.number))) }
    ensures none { IfOk result (λ other. (state.now.part ≡ old.now.part) × (state.now.number ≡ old.now.number) → other ≡ None) }
    ensures out { IfOk result (λ other. (state.now.part ≡ old.now.part) × (old.now.number < state.now.number)
        → IsSomeAnd other (λ t. TakesOut changed.now.items table.now t)) }
    ensures anew { IfOk result (λ other. ((state.now.part ≡ old.now.part) × (old.now.number < state.now.number) → ⊥)
        → IfSome other (λ t. IsTable control (B.seen blocks.old).number t.pages.items (reverse t.free.items))) }
    ensures stands { IfOk result (λ other. ((state.now.part ≡ old.now.part) × (old.now.number < state.now.number) → ⊥)
        → IfSome other (λ t. IfSome (B.seen blocks.old).list (TableStands indexes changed.now.items control t.pages.items (reverse t.free.items)))) }
    ensures looks { Looks (B.steady blocks.old blocks.new) (B.seen blocks.old) (B.seen blocks.new) }
    ensures failed { IsErrOf result VolWhy.Failed → Rose (B.seen blocks.old).disk_faults (B.seen blocks.new).disk_faults }
    ensures live { (result ≡ Err VolWhy.Failed → ⊥) → IsTrue (B.seen blocks.new).live }
{
    if keeps_number(old, state) {
        return Ok(None);
    }
    let alloc = *changed.allocator();
    if raises_number(old, state) {
        return Ok(Some(without_left(alloc, table, changed)?));
    }
    match read_table(alloc, blocks, control, indexes, changed) {
        Ok(table) => Ok(Some(table)),
        Err(why) => Err(why),
    }
}

/// What a change of the state at a place comes to. It stages nothing.
pub(crate) fn plan<B: Blocks>(
    blocks: &mut B,
    control: u32,
    indexes: u16,
    states: &Vec<PartState>,
    table: &Table,
    place: u16,
    state: &PartState,
) -> Result<Change, VolWhy>
    requires live { IsTrue (B.seen blocks.old).live }
    requires number { control ≤ (B.seen blocks.old).number }
    requires place { place < length states.now.items }
    requires control { place < 32 * control }
    requires short { length (cursor_bytes state.now.cursor) ≤ 120 }
    ensures states { IfOk result (λ change. change.states.items ≡ slice_set states.now.items place state.now) }
    ensures same { IfOk result (λ change. IfNone change.table (KeepsNumber states.now.items place state.now)) }
    ensures none { IfOk result (λ change. KeepsNumber states.now.items place state.now → change.table ≡ None) }
    ensures out { IfOk result (λ change. RaisesNumber states.now.items place state.now
        → IsSomeAnd change.table (λ t. TakesOut change.states.items table.now t)) }
    ensures anew { IfOk result (λ change. (RaisesNumber states.now.items place state.now → ⊥)
        → IfSome change.table (λ t. IsTable control (B.seen blocks.old).number t.pages.items (reverse t.free.items))) }
    ensures stands { IfOk result (λ change. (RaisesNumber states.now.items place state.now → ⊥)
        → IfSome change.table (λ t. IfSome (B.seen blocks.old).list
        (TableStands indexes change.states.items control t.pages.items (reverse t.free.items)))) }
    ensures block { IfOk result (λ change. IfSome (B.seen blocks.old).list
        (λ list. change.block ≡ with_row (place % 32) (control_row state.now) (slice_index_or list (place / 32) []))) }
    ensures looks { Looks (B.steady blocks.old blocks.new) (B.seen blocks.old) (B.seen blocks.new) }
    ensures failed { IsErrOf result VolWhy.Failed → Rose (B.seen blocks.old).disk_faults (B.seen blocks.new).disk_faults }
    ensures live { (result ≡ Err VolWhy.Failed → ⊥) → IsTrue (B.seen blocks.new).live }
{
    let alloc = *states.allocator();
    let changed = with_state(alloc, states, place, state)?;
    let mut block = [0; BLOCK];
    look(blocks, u32::from(place / 32), &mut block)?;
    put_row(&mut block, place % 32, state);
    let old = &states[usize::from(place)];
    match table_under(blocks, control, indexes, table, old, &changed, state) {
        Ok(table) => Ok(Change {
            states: changed,
            table,
            block,
        }),
        Err(why) => Err(why),
    }
}
