// What the commands make of the state of their partition. None takes memory, and a refusal changes nothing.
ghost use Rattle.std.specs.Prelude.{◌≡◌, ◌<◌, OnOk, OnErr, IfNone};
ghost use Rattle.volume_image.specs.Header.{other_side};
ghost use Rattle.reorg_cursor.specs.State.{answer, start_refusal, resume_refusal, unit_refusal, started, paused, resumed, ended};

use crate::Refusal;
use hal_base::{Cursor, PartState};

/// Begins a reorganization: the other side's data sets, of the next number, are then written. `Begun` unless the
/// partition is idle; `LastNumber` where there is no next number. IMS: INITIATE OLREORG.
pub fn start(state: &mut PartState) -> Result<(), Refusal>
    ensures answer { result ≡ answer (start_refusal state.old) }
    ensures started { OnOk result (state.new ≡ started state.old) }
    ensures same { OnErr result (state.new ≡ state.old) }
{
    if state.state != b'I' {
        return Err(Refusal::Begun);
    }
    if state.number == 65535 {
        return Err(Refusal::LastNumber);
    }
    state.state = b'C';
    Ok(())
}

/// Pauses a reorganization where it stands. `NotBegun` where the partition is idle, `Paused` where it is paused.
/// IMS: TERMINATE OLREORG.
pub fn pause(state: &mut PartState) -> Result<(), Refusal>
    ensures answer { result ≡ answer (unit_refusal state.old) }
    ensures paused { OnOk result (state.new ≡ paused state.old) }
    ensures same { OnErr result (state.new ≡ state.old) }
{
    goes_on(state)?;
    state.state = b'P';
    Ok(())
}

/// Resumes a paused reorganization. `NotBegun` where the partition is idle, `Begun` where it is active.
pub fn resume(state: &mut PartState) -> Result<(), Refusal>
    ensures answer { result ≡ answer (resume_refusal state.old) }
    ensures resumed { OnOk result (state.new ≡ resumed state.old) }
    ensures same { OnErr result (state.new ≡ state.old) }
{
    if state.state == b'I' {
        return Err(Refusal::NotBegun);
    }
    if state.state == b'C' {
        return Err(Refusal::Begun);
    }
    state.state = b'C';
    Ok(())
}

/// Ends a reorganization: the side that it wrote is the active one, with its number. `NotBegun` where the partition is
/// idle, `Paused` where it is paused; whether all records are copied is the caller's to know.
pub fn end(state: &mut PartState) -> Result<(), Refusal>
    requires { IfNone (unit_refusal state.old) (state.old.number < 65535) }
    ensures answer { result ≡ answer (unit_refusal state.old) }
    ensures ended { OnOk result (state.new ≡ ended state.old) }
    ensures same { OnErr result (state.new ≡ state.old) }
{
    goes_on(state)?;
    state.number += 1;
    state.side = other_side(state.side);
    state.state = b'I';
    state.cursor = Cursor::Front;
    Ok(())
}

/// Whether units may be copied now: `NotBegun` where the partition is idle, `Paused` where it is paused.
pub fn goes_on(state: &PartState) -> Result<(), Refusal>
    ensures { result ≡ answer (unit_refusal state.now) }
{
    match state.state {
        b'I' => Err(Refusal::NotBegun),
        b'C' => Ok(()),
        _ => Err(Refusal::Paused),
    }
}

/// The side that a reorganization writes.
fn other_side(side: u8) -> u8
    ensures { result ≡ other_side side }
{
    if side == b'A' { b'M' } else { b'A' }
}
