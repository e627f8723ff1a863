// Why one load row is refused.
ghost use Rattle.hal_loader.specs.declared.fault.RowFault.TheVariants as row;

use crate::TakeFault;
use hal_base::Memory;

/// Why a row wasn't taken: a broken rule with its code, or a fault of the taker.
#[derive(Clone, Copy, Debug, PartialEq, Eq)]
pub(crate) enum RowFault {
    Broken([u8; 2]),
    Failed,
    Memory,
}

impl From<Memory> for RowFault {
    ghost from_gives = { λ _ fault. fault ≡ row.Memory };

    ghost use Rattle.std.specs.Prelude.{◌≡◌};

    fn from(_: Memory) -> RowFault {
        RowFault::Memory
    }
}
