// Takes a source in whole.
ghost use Rattle.std.specs.Prelude.{◌≡◌, ◌<◌, ◌≤◌, ◌++◌, [], length, IfOk, OnErr, IfErr, Ok, take};
ghost use Rattle.std.specs.Io.KnownBytes.{Consumes, IsAtEnd, Keeps};
ghost use Rattle.hal_base.specs.Fault.{HasCause, Rose};
ghost use Rattle.script_runs.specs.Script.{limit};

use hal_base::{Bytes, Failed, Memory, Source};
use script_runs::{LIMIT, PIECE, read_piece};
use std::alloc::Global;

/// Why a source wasn't taken in.
#[derive(Clone, Copy, Debug, PartialEq, Eq)]
pub enum SourceFault {
    ReadFault,
    /// A byte past the limit was read.
    TooLong,
    Memory,
}

impl SourceFault {
    ghost use Rattle.hal_desk.specs.Gathered.{status_of};

    /// The exit status.
    pub fn status(self) -> u8
        ensures { result ≡ status_of self }
    {
        match self {
            SourceFault::ReadFault => 5,
            SourceFault::Memory => 8,
            SourceFault::TooLong => 10,
        }
    }
}

ghost use Rattle.hal_desk.specs.Gathered.{Gathered};

/// All that is left of a source.
pub fn take_all<S: Source>(alloc: Global, source: &mut S) -> Result<Bytes, SourceFault>
    ensures { Gathered (S.left source.old) (S.left source.new) (S.read_faults source.old) (S.read_faults source.new) result }
{
    let mut text = Bytes::new(alloc);
    let mut buffer = [0u8; PIECE];
    'pieces: loop {
        let most = PIECE.min(LIMIT as usize + 1 - text.len());
        let count = match read_piece(source, &mut buffer, most) {
            Ok(count) => count,
            Err(Failed) => return Err(SourceFault::ReadFault),
        };
        if count == 0 {
            return Ok(text);
        }
        if text.len() + count > LIMIT as usize {
            return Err(SourceFault::TooLong);
        }
        if let Err(Memory) = text.append(&buffer[..count]) {
            return Err(SourceFault::Memory);
        }
    }
}
