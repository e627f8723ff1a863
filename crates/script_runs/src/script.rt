// Runs a script: reads the source in pieces, cuts the text into lines, and hands them to the taker one by one.
ghost use Rattle.std.specs.Prelude.{ℕ, IsTrue, ◌≡◌, ◌+◌, ◌<◌, ◌≤◌, ◌^◌, ◌++◌, ◌∷◌, [], length, take, IfOk, IfNone, IfSome, OnOk, OnErr, Ok};
ghost use Rattle.std.specs.Io.KnownBytes.{Consumes, IsAtEnd, Keeps};
ghost use Rattle.std.specs.Str.Lines.{lines, strip_carriage_return};
ghost use Rattle.hal_base.specs.Fault.{HasCause};
ghost use Rattle.script_runs.specs.Faults.{EndsLines};
ghost use Rattle.script_runs.specs.Lines.{parts_of, ended_lines, rest_of};
ghost use Rattle.script_runs.specs.Script.{IsLater, RanFrom, RanScript, ReadOn, SourceView, source_view};
ghost use Rattle.script_runs.specs.Taken.{TookLines};
ghost use Rattle.script_runs.specs.TakerView.{is_ready};

use crate::{Ending, EngineFault, LineTaker};
use hal_base::{Bytes, Failed, Source};
use std::alloc::Global;

/// The most bytes that a script may have.
pub const LIMIT: u32 = 67_108_864;

pub const PIECE: usize = 4096;

/// The line that is being read: its bytes so far, and its number.
#[derive(Drop)]
struct Pending {
    line: Bytes,
    number: u32,
}

// Takes one line, again while it isn't done.
fn take_line<L: LineTaker>(taker: &mut L, number: u32, text: &[u8]) -> Result<(), EngineFault>
    requires { IsTrue (is_ready (L.seen taker.old)) }
    ensures schema { L.schema taker.new ≡ L.schema taker.old }
    ensures steady { L.steady taker.old taker.new }
    ensures took { TookLines (L.meaning (L.schema taker.old)) (text.now ∷ []) number (L.seen taker.old) (L.seen taker.new) result }
    ensures ends { EndsLines result (L.seen taker.old) (L.seen taker.new) }
{
    'units: loop {
        if taker.line(None, number, text)? {
            return Ok(());
        }
    }
}

// Takes the line whose end was read, or goes on with it.
fn take_byte<L: LineTaker>(
    taker: &mut L,
    pending: &mut Pending,
    byte: u8,
) -> Result<(), EngineFault>
    requires ready { IsTrue (is_ready (L.seen taker.old)) }
    requires unended { parts_of pending.old.line ≡ pending.old.line ∷ [] }
    requires number { pending.old.number < 2 ^ 31 }
    ensures schema { L.schema taker.new ≡ L.schema taker.old }
    ensures steady { L.steady taker.old taker.new }
    ensures line { OnOk result (pending.new.line ≡ rest_of (pending.old.line ++ byte ∷ [])) }
    ensures number { OnOk result (pending.new.number ≡ pending.old.number + length (ended_lines (pending.old.line ++ byte ∷ []))) }
    ensures rises { OnOk result (pending.new.number ≤ pending.old.number + 1) }
    ensures took { TookLines (L.meaning (L.schema taker.old)) (ended_lines (pending.old.line ++ byte ∷ [])) pending.old.number
        (L.seen taker.old) (L.seen taker.new) result }
    ensures ends { EndsLines result (L.seen taker.old) (L.seen taker.new) }
{
    if byte != b'\n' {
        pending.line.push(byte)?;
        return Ok(());
    }
    take_line(taker, pending.number, stripped(pending.line.as_slice()))?;
    pending.line.clear();
    pending.number += 1;
    Ok(())
}

// Takes the bytes of a piece, one after another.
fn take_piece<L: LineTaker>(
    taker: &mut L,
    pending: &mut Pending,
    piece: &[u8],
) -> Result<(), EngineFault>
    requires ready { IsTrue (is_ready (L.seen taker.old)) }
    requires unended { parts_of pending.old.line ≡ pending.old.line ∷ [] }
    requires number { pending.old.number + length piece.now < 2 ^ 31 }
    ensures schema { L.schema taker.new ≡ L.schema taker.old }
    ensures steady { L.steady taker.old taker.new }
    ensures line { OnOk result (pending.new.line ≡ rest_of (pending.old.line ++ piece.now)) }
    ensures number { OnOk result (pending.new.number ≡ pending.old.number + length (ended_lines (pending.old.line ++ piece.now))) }
    ensures rises { OnOk result (pending.new.number ≤ pending.old.number + length piece.now) }
    ensures took { TookLines (L.meaning (L.schema taker.old)) (ended_lines (pending.old.line ++ piece.now)) pending.old.number
        (L.seen taker.old) (L.seen taker.new) result }
    ensures ends { EndsLines result (L.seen taker.old) (L.seen taker.new) }
{
    for byte in piece {
        take_byte(taker, pending, *byte)?;
    }
    Ok(())
}

// Takes the last line, which has no end; where nothing stands behind the last line end there is none.
fn take_last<L: LineTaker>(taker: &mut L, pending: &Pending) -> Result<(), EngineFault>
    requires ready { IsTrue (is_ready (L.seen taker.old)) }
    requires unended { parts_of pending.now.line ≡ pending.now.line ∷ [] }
    ensures schema { L.schema taker.new ≡ L.schema taker.old }
    ensures steady { L.steady taker.old taker.new }
    ensures took { TookLines (L.meaning (L.schema taker.old)) (lines pending.now.line) pending.now.number (L.seen taker.old) (L.seen taker.new) result }
    ensures ends { EndsLines result (L.seen taker.old) (L.seen taker.new) }
{
    if pending.line.is_empty() {
        return Ok(());
    }
    take_line(taker, pending.number, pending.line.as_slice())
}

// Reads at most so many bytes to the front of the buffer.
pub fn read_piece<S: Source>(
    source: &mut S,
    buffer: &mut [u8],
    most: usize,
) -> Result<usize, Failed>
    requires some { 0 < most }
    requires fits { most ≤ length buffer.old }
    ensures within { IfOk result (λ n. n ≤ most) }
    ensures taken { IfOk result (λ n. Consumes (S.left source.old) (S.left source.new) (take n buffer.new)) }
    ensures end { result ≡ Ok 0 → IsAtEnd (S.left source.new) }
    ensures kept { OnErr result (Keeps (S.left source.old) (S.left source.new)) }
    ensures cause { HasCause (S.read_faults source.old) (S.read_faults source.new) result }
{
    source.next_piece(&mut buffer[..most])
}

// The source is at its end: takes the last line.
fn finish<L: LineTaker>(taker: &mut L, pending: &Pending) -> Ending
    requires ready { IsTrue (is_ready (L.seen taker.old)) }
    requires unended { parts_of pending.now.line ≡ pending.now.line ∷ [] }
    ensures schema { L.schema taker.new ≡ L.schema taker.old }
    ensures steady { L.steady taker.old taker.new }
    ensures later { ((L.seen taker.old).disk_faults ≤ (L.seen taker.new).disk_faults) × ((L.seen taker.old).say_faults ≤ (L.seen taker.new).say_faults) }
    ensures ended { (before after : SourceView) (room : ℕ) → Consumes before.left after.left [] → IsAtEnd after.left
        → RanFrom (L.meaning (L.schema taker.old)) pending.now.line pending.now.number room before after (L.seen taker.old) (L.seen taker.new) result }
{
    match take_last(taker, pending) {
        Ok(()) => Ending::Done,
        Err(fault) => Ending::from(fault),
    }
}

// Reads a piece and takes its lines. An ending where that was the last of them.
fn step<S: Source, L: LineTaker>(
    source: &mut S,
    taker: &mut L,
    pending: &mut Pending,
    room: &mut u32,
) -> Option<Ending>
    requires ready { IsTrue (is_ready (L.seen taker.old)) }
    requires unended { parts_of pending.old.line ≡ pending.old.line ∷ [] }
    requires number { pending.old.number + room.old < 2 ^ 30 }
    requires some { 0 < room.old }
    ensures schema { L.schema taker.new ≡ L.schema taker.old }
    ensures steady { L.steady taker.old taker.new }
    ensures ready { IfNone result (IsTrue (is_ready (L.seen taker.new))) }
    ensures number { IfNone result (pending.new.number + room.new < 2 ^ 30) }
    ensures nearer { IfNone result (room.new < room.old) }
    ensures on { IfNone result (ReadOn (L.meaning (L.schema taker.old)) pending.old.line pending.old.number room.old
        pending.new.line pending.new.number room.new
        (source_view S.Source source.old)
        (source_view S.Source source.new)
        (L.seen taker.old) (L.seen taker.new)) }
    ensures ended { IfSome result (RanFrom (L.meaning (L.schema taker.old)) pending.old.line pending.old.number room.old
        (source_view S.Source source.old)
        (source_view S.Source source.new)
        (L.seen taker.old) (L.seen taker.new)) }
    ensures later { IsLater (source_view S.Source source.old) (source_view S.Source source.new) (L.seen taker.old) (L.seen taker.new) }
{
    let mut buffer = [0u8; PIECE];
    let most = PIECE.min(*room as usize);
    let count = match read_piece(source, &mut buffer, most) {
        Ok(count) => count,
        Err(Failed) => return Some(Ending::ReadFault),
    };
    if count == 0 {
        return Some(finish(taker, pending));
    }
    if let Err(fault) = take_piece(taker, pending, &buffer[..count]) {
        return Some(Ending::from(fault));
    }
    *room -= count as u32;
    None
}

// The limit is reached: one more byte is too many.
fn read_past<S: Source, L: LineTaker>(source: &mut S, taker: &mut L, pending: &Pending) -> Ending
    requires ready { IsTrue (is_ready (L.seen taker.old)) }
    requires unended { parts_of pending.now.line ≡ pending.now.line ∷ [] }
    ensures schema { L.schema taker.new ≡ L.schema taker.old }
    ensures steady { L.steady taker.old taker.new }
    ensures ended { RanFrom (L.meaning (L.schema taker.old)) pending.now.line pending.now.number 0
        (source_view S.Source source.old)
        (source_view S.Source source.new)
        (L.seen taker.old) (L.seen taker.new) result }
    ensures later { IsLater (source_view S.Source source.old) (source_view S.Source source.new) (L.seen taker.old) (L.seen taker.new) }
{
    let mut buffer = [0u8];
    match read_piece(source, &mut buffer, 1) {
        Ok(0) => finish(taker, pending),
        Ok(_) => Ending::TooLong,
        Err(Failed) => Ending::ReadFault,
    }
}

/// Runs the whole script of a source. At most one byte past the limit is read, and only once each line that ended
/// within it is done.
pub fn run_script<S: Source, L: LineTaker>(alloc: Global, source: &mut S, taker: &mut L) -> Ending
    requires { IsTrue (is_ready (L.seen taker.old)) }
    ensures schema { L.schema taker.new ≡ L.schema taker.old }
    ensures steady { L.steady taker.old taker.new }
    ensures ran { RanScript (L.meaning (L.schema taker.old))
        (source_view S.Source source.old)
        (source_view S.Source source.new)
        (L.seen taker.old) (L.seen taker.new) result }
    ensures later { IsLater (source_view S.Source source.old) (source_view S.Source source.new) (L.seen taker.old) (L.seen taker.new) }
{
    let mut pending = Pending {
        line: Bytes::new(alloc),
        number: 1,
    };
    let mut room = LIMIT;
    'pieces: while room > 0 {
        if let Some(ending) = step(source, taker, &mut pending, &mut room) {
            return ending;
        }
    }
    read_past(source, taker, &pending)
}

// A line less the carriage return before its end.
fn stripped(line: &[u8]) -> &[u8]
    ensures { result.now ≡ strip_carriage_return line.now }
{
    match line {
        [front @ .., b'\r'] => front,
        _ => line,
    }
}
