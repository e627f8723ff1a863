// Why a line isn't read.
ghost use Rattle.std.specs.Prelude.{◌≡◌};
ghost use Rattle.call_text.specs.declared.fault.ReadError.TheVariants.{Memory as OutOfMemory};

use hal_base::Memory;

/// The first fault from the left.
#[derive(Clone, Copy, Debug, PartialEq, Eq)]
pub enum Fault {
    /// A word or sign that no form has there, or that is missing.
    Form,
    /// A value that isn't closed, or whose digits are no whole bytes of hexadecimal.
    Value,
    /// A number that no step has as its count.
    Count,
}

#[derive(Debug, Drop)]
pub enum ReadError {
    Memory,
    Fault(Fault),
}

impl From<Memory> for ReadError {
    ghost from_gives = { λ _ e. e ≡ OutOfMemory };

    fn from(_: Memory) -> ReadError {
        ReadError::Memory
    }
}
