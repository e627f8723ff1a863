ghost use Rattle.std.specs.Prelude.{◌≡◌};

use thiserror::Error;

/// Why a command is refused by the state of its partition.
#[derive(Clone, Copy, Debug, PartialEq, Eq, Error)]
pub enum Refusal {
    #[error("the reorganization has begun")]
    Begun,
    #[error("no reorganization has begun")]
    NotBegun,
    #[error("the reorganization is paused")]
    Paused,
    #[error("the partition has the last reorganization number")]
    LastNumber,
}

impl Refusal {
    ghost use Rattle.reorg_cursor.specs.State.{code_of};

    /// The digit of the status that a reply shows: `+2` to `+5`.
    pub fn code(self) -> u8
        ensures { result ≡ code_of self }
    {
        match self {
            Refusal::Begun => 2,
            Refusal::NotBegun => 3,
            Refusal::Paused => 4,
            Refusal::LastNumber => 5,
        }
    }
}
