// Why no definition was read, and why no volume was written.
ghost use Rattle.std.specs.Prelude.{◌≡◌};
ghost use Rattle.volume_head.specs.declared.fault.HeadFault.TheVariants as head;
ghost use Rattle.volume_head.specs.declared.fault.WriteFault.TheVariants as writes;

use hal_base::{Failed, Memory};

/// Why the definition of a volume wasn't read.
#[derive(Clone, Copy, Debug, PartialEq, Eq)]
pub enum HeadFault {
    /// The site doesn't begin with the mark of a volume.
    NotAVolume,
    /// The mark is there, and the head and the definition are those of no schema: they break soundness rule 1.
    Damaged,
    DiskFault,
    Memory,
}

impl From<Failed> for HeadFault {
    ghost from_gives = { λ _ fault. fault ≡ head.DiskFault };

    fn from(_: Failed) -> HeadFault {
        HeadFault::DiskFault
    }
}

impl From<Memory> for HeadFault {
    ghost from_gives = { λ _ fault. fault ≡ head.Memory };

    fn from(_: Memory) -> HeadFault {
        HeadFault::Memory
    }
}

/// Why no volume was written.
#[derive(Clone, Copy, Debug, PartialEq, Eq)]
pub enum WriteFault {
    /// The site begins with the mark of a volume.
    Holds,
    DiskFault,
    Memory,
}

impl From<Failed> for WriteFault {
    ghost from_gives = { λ _ fault. fault ≡ writes.DiskFault };

    fn from(_: Failed) -> WriteFault {
        WriteFault::DiskFault
    }
}

impl From<Memory> for WriteFault {
    ghost from_gives = { λ _ fault. fault ≡ writes.Memory };

    fn from(_: Memory) -> WriteFault {
        WriteFault::Memory
    }
}
