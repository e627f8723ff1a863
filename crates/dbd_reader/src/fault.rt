// Why a statement isn't read.
ghost use Rattle.std.specs.Prelude.{◌≡◌};
ghost use Rattle.dbd_reader.specs.declared.fault.ReadError.TheVariants.{Memory as OutOfMemory};

use hal_base::Memory;

/// A rule that a statement breaks, whose line its reader doesn't know.
#[derive(Debug, Drop)]
pub enum ReadError {
    Memory,
    Rule(u8),
}

impl From<Memory> for ReadError {
    ghost from_gives = { λ _ e. e ≡ OutOfMemory };

    fn from(_: Memory) -> ReadError {
        ReadError::Memory
    }
}
