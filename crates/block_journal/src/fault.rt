// Why the blocks of a site weren't opened.
ghost use Rattle.std.specs.Prelude.{◌≡◌, ℕ};
ghost use Rattle.block_journal.specs.declared.fault.LoadFault.TheVariants as load;

use hal_base::{Failed, Memory};
use std::alloc::AllocFailed;

/// Why a volume wasn't opened. Of these the journal answers `Damaged(1)`, `DiskFault` and `Memory`.
#[derive(Clone, Copy, Debug, PartialEq, Eq)]
pub enum OpenWhy {
    NotAVolume,
    Damaged(u8),
    DiskFault,
    Memory,
}

/// A refused opening, with the site that it hands back.
#[derive(Drop)]
pub struct OpenFault<T> {
    pub why: OpenWhy,
    pub site: T,
}

/// Why the blocks weren't loaded.
#[derive(Clone, Copy, Debug)]
pub(crate) enum LoadFault {
    /// The gate is open, and the body isn't as its layout asks.
    Damaged,
    DiskFault,
    Memory,
}

impl LoadFault {
    pub(crate) fn why(self) -> OpenWhy
        ensures volume { result ≡ OpenWhy.NotAVolume → ⊥ }
        ensures damaged { (rule : ℕ) → result ≡ OpenWhy.Damaged rule → (rule ≡ 1) × (self ≡ LoadFault.Damaged) }
        ensures disk_fault { result ≡ OpenWhy.DiskFault → self ≡ LoadFault.DiskFault }
        ensures memory { result ≡ OpenWhy.Memory → self ≡ LoadFault.Memory }
    {
        match self {
            LoadFault::Damaged => OpenWhy::Damaged(1),
            LoadFault::DiskFault => OpenWhy::DiskFault,
            LoadFault::Memory => OpenWhy::Memory,
        }
    }
}

impl From<Failed> for LoadFault {
    ghost from_gives = { λ _ fault. fault ≡ load.DiskFault };

    fn from(_: Failed) -> LoadFault {
        LoadFault::DiskFault
    }
}

impl From<Memory> for LoadFault {
    ghost from_gives = { λ _ fault. fault ≡ load.Memory };

    fn from(_: Memory) -> LoadFault {
        LoadFault::Memory
    }
}

impl<T: Drop> From<AllocFailed<T>> for LoadFault {
    ghost from_gives = { λ _ fault. fault ≡ load.Memory };

    fn from(_: AllocFailed<T>) -> LoadFault {
        LoadFault::Memory
    }
}
