ghost use Rattle.std.specs.Prelude.{◌≡◌};

use crate::EngineFault;

/// How a run of a script ended.
#[derive(Clone, Copy, Debug, PartialEq, Eq)]
pub enum Ending {
    /// The source was read to its end, and each line is done.
    Done,
    ReadFault,
    DiskFault,
    SayFault,
    Memory,
    /// A byte past the limit was read.
    TooLong,
}

impl Ending {
    ghost use Rattle.script_runs.specs.Script.{status_of};

    /// The exit status.
    pub fn status(self) -> u8
        ensures { result ≡ status_of self }
    {
        match self {
            Ending::Done => 0,
            Ending::DiskFault => 4,
            Ending::ReadFault => 5,
            Ending::SayFault => 6,
            Ending::Memory => 8,
            Ending::TooLong => 10,
        }
    }
}

impl From<EngineFault> for Ending {
    ghost use Rattle.std.specs.Prelude.{◌≡◌};
    ghost use Rattle.script_runs.specs.Script.{ending_of};

    ghost from_gives = { λ fault ending. ending ≡ ending_of fault };

    fn from(fault: EngineFault) -> Ending {
        match fault {
            EngineFault::DiskFault => Ending::DiskFault,
            EngineFault::SayFault => Ending::SayFault,
            EngineFault::Memory => Ending::Memory,
        }
    }
}
