// Why an entry isn't added.
ghost use Rattle.std.specs.Prelude.{◌≡◌};
ghost use Rattle.secondary_index.specs.Faults.{add_fault};
ghost use Rattle.secondary_index.specs.declared.fault.AddFault.TheVariants as add;

use hal_base::{Memory, PageFault};

/// Why an entry isn't added to an index: `Taken` where another entry has its key, else as of any page.
#[derive(Clone, Copy, Debug, PartialEq, Eq)]
pub enum AddFault {
    Taken,
    NoRoom,
    Failed,
    Memory,
}

impl From<PageFault> for AddFault {
    ghost from_gives = { λ why fault. fault ≡ add_fault why };

    fn from(why: PageFault) -> AddFault {
        match why {
            PageFault::NoRoom => AddFault::NoRoom,
            PageFault::Failed => AddFault::Failed,
            PageFault::Memory => AddFault::Memory,
        }
    }
}

impl From<Memory> for AddFault {
    ghost from_gives = { λ _ fault. fault ≡ add.Memory };

    fn from(_: Memory) -> AddFault {
        AddFault::Memory
    }
}
