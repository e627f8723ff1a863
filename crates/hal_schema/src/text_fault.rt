// Why a text of a definition isn't read.
ghost use Rattle.std.specs.Prelude.{◌≡◌};
ghost use Rattle.hal_schema.specs.declared.text_fault.TextFault.TheVariants.{Memory as WantOfMemory};

use hal_base::Memory;
use thiserror::Error;

/// The first line of a text that breaks a rule, or want of memory.
#[derive(Debug, Drop, Error)]
pub enum TextFault {
    #[error("line {line} breaks rule {rule}")]
    Rule { rule: u8, line: u32 },
    #[error("out of memory")]
    Memory,
}

impl From<Memory> for TextFault {
    ghost from_gives = { λ _ e. e ≡ WantOfMemory };

    fn from(_: Memory) -> TextFault {
        TextFault::Memory
    }
}
