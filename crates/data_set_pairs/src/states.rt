// The control blocks, read into the states of the partitions.
ghost use Rattle.std.specs.Prelude.{◌≡◌, ◌+◌, ◌*◌, ◌<◌, ◌≤◌, ℕ, List, length, min, replicate, slice_get, Some, IfOk, IfSome, IsErrOf, IsTrue, MatchBool, ◌↔◌};
ghost use Rattle.hal_base.specs.Fault.{Rose};
ghost use Rattle.volume_image.specs.Control.{control_count, row_in};
ghost use Rattle.data_set_pairs.specs.Reading.{HasFirstStates, HasNoStates};
ghost use Rattle.data_set_pairs.specs.Stays.{Looks};

use crate::VolWhy;
use crate::look::look;
use hal_base::{BLOCK, Blocks, Memory, PartState};
use hal_schema::Schema;
use std::alloc::Global;
use volume_image::{ROW, read_row};

/// The rows of a control block.
const ROWS: u16 = 32;

/// Reads the row at a place, and answers whether it is as it must be.
fn take_row(
    alloc: Global,
    schema: &Schema,
    place: u16,
    row: &[u8],
    states: &mut Vec<PartState>,
) -> Result<bool, Memory>
    requires row { length row.now ≡ ROW }
    requires place { place < 32 * control_count schema.now }
    ensures many { length states.old.items ≡ min place (length schema.now.parts)
        → IfOk result (λ good. IsTrue good → length states.new.items ≡ min (place + 1) (length schema.now.parts)) }
    ensures taken { (blocks : List (List ℕ)) → row_in blocks place ≡ row.now → HasFirstStates schema.now blocks place states.old.items
        → IfOk result (λ good. MatchBool good (HasFirstStates schema.now blocks (place + 1) states.new.items) (HasNoStates schema.now blocks)) }
{
    if usize::from(place) >= schema.parts.len() {
        return Ok(is_zero(row));
    }
    match read_row(alloc, schema, place, row)? {
        Some(state) => {
            states.push(state)?;
            Ok(true)
        }
        None => Ok(false),
    }
}

fn is_zero(row: &[u8]) -> bool
    ensures { IsTrue result ↔ (row.now ≡ replicate 128 0) }
{
    row == [0; ROW].as_slice()
}

/// Reads the rows of a control block.
fn take_block(
    alloc: Global,
    schema: &Schema,
    number: u16,
    block: &[u8; BLOCK],
    states: &mut Vec<PartState>,
) -> Result<bool, Memory>
    requires { number < control_count schema.now }
    ensures many { length states.old.items ≡ min (32 * number) (length schema.now.parts)
        → IfOk result (λ good. IsTrue good → length states.new.items ≡ min (32 * number + 32) (length schema.now.parts)) }
    ensures taken { (blocks : List (List ℕ)) → slice_get blocks number ≡ Some block.now
        → HasFirstStates schema.now blocks (32 * number) states.old.items → IfOk result (λ good. MatchBool good
        (HasFirstStates schema.now blocks (32 * number + 32) states.new.items) (HasNoStates schema.now blocks)) }
{
    for row in 0..ROWS {
        let start = usize::from(row) * ROW;
        if !take_row(
            alloc,
            schema,
            ROWS * number + row,
            &block[start..start + ROW],
            states,
        )? {
            return Ok(false);
        }
    }
    Ok(true)
}

/// How many control blocks the schema's partitions take.
pub(crate) fn control_count(schema: &Schema) -> u16
    ensures { result ≡ control_count schema.now }
{
    schema.parts.len().div_ceil(usize::from(ROWS)) as u16
}

/// Reads the states of all partitions.
pub(crate) fn read_states<B: Blocks>(
    alloc: Global,
    blocks: &mut B,
    schema: &Schema,
) -> Result<Vec<PartState>, VolWhy>
    requires live { IsTrue (B.seen blocks.old).live }
    requires number { control_count schema.now ≤ (B.seen blocks.old).number }
    ensures many { IfOk result (λ states. length states.items ≡ length schema.now.parts) }
    ensures states { IfOk result (λ states. IfSome (B.seen blocks.old).list
        (λ list. HasFirstStates schema.now list (32 * control_count schema.now) states.items)) }
    ensures broken { (rule : ℕ) → result ≡ Err (VolWhy.Damaged rule) → (rule ≡ 1) × IfSome (B.seen blocks.old).list (HasNoStates schema.now) }
    ensures looks { Looks (B.steady blocks.old blocks.new) (B.seen blocks.old) (B.seen blocks.new) }
    ensures failed { IsErrOf result VolWhy.Failed → Rose (B.seen blocks.old).disk_faults (B.seen blocks.new).disk_faults }
    ensures live { (result ≡ Err VolWhy.Failed → ⊥) → IsTrue (B.seen blocks.new).live }
{
    let mut states = Vec::new(alloc);
    let mut block = [0; BLOCK];
    for number in 0..control_count(schema) {
        look(blocks, u32::from(number), &mut block)?;
        if !take_block(alloc, schema, number, &block, &mut states)? {
            return Err(VolWhy::Damaged(1));
        }
    }
    Ok(states)
}
