ghost use Rattle.std.specs.Prelude.{◌≡◌};
ghost use Rattle.hal_base.specs.Outcome.{page_fault};
ghost use Rattle.hal_base.specs.declared.outcome.StageFault.TheVariants as stage;
ghost use Rattle.hal_base.specs.declared.outcome.PageFault.TheVariants as page;
ghost use Rattle.hal_base.specs.declared.outcome.StoreFault.TheVariants as store;
ghost use Rattle.hal_base.specs.declared.outcome.JournalFault.TheVariants as journal;

use std::alloc::{AllocError, AllocFailed};

/// A call of the outside failed. Each comes only where the object's count of faults rose in that call.
#[derive(Clone, Copy, Debug, PartialEq, Eq)]
pub struct Failed;

/// No memory was to be had. No clause says when this comes.
#[derive(Clone, Copy, Debug, PartialEq, Eq)]
pub struct Memory;

impl From<AllocError> for Memory {
    fn from(_: AllocError) -> Memory {
        Memory
    }
}

impl<T: Drop> From<AllocFailed<T>> for Memory {
    fn from(_: AllocFailed<T>) -> Memory {
        Memory
    }
}

/// Why a block wasn't staged. The list is then as it was.
#[derive(Clone, Copy, Debug, PartialEq, Eq)]
pub enum StageFault {
    Failed,
    Memory,
}

impl From<Failed> for StageFault {
    ghost from_gives = { λ _ fault. fault ≡ stage.Failed };

    fn from(_: Failed) -> StageFault {
        StageFault::Failed
    }
}

impl From<Memory> for StageFault {
    ghost from_gives = { λ _ fault. fault ≡ stage.Memory };

    fn from(_: Memory) -> StageFault {
        StageFault::Memory
    }
}

/// Why a page wasn't read, changed or added. `NoRoom` comes where a new page is needed and no block is free.
#[derive(Clone, Copy, Debug, PartialEq, Eq)]
pub enum PageFault {
    NoRoom,
    Failed,
    Memory,
}

impl From<Failed> for PageFault {
    ghost from_gives = { λ _ fault. fault ≡ page.Failed };

    fn from(_: Failed) -> PageFault {
        PageFault::Failed
    }
}

impl From<Memory> for PageFault {
    ghost from_gives = { λ _ fault. fault ≡ page.Memory };

    fn from(_: Memory) -> PageFault {
        PageFault::Memory
    }
}

impl From<StageFault> for PageFault {
    ghost from_gives = { λ why fault. fault ≡ page_fault why };

    fn from(why: StageFault) -> PageFault {
        match why {
            StageFault::Failed => PageFault::Failed,
            StageFault::Memory => PageFault::Memory,
        }
    }
}

/// Why what stands in the pages of a data set wasn't read: `BadTile` at the page and offset from which it
/// isn't lawful.
#[derive(Clone, Copy, Debug, PartialEq, Eq)]
pub enum StoreFault {
    BadTile { page: u16, offset: u16 },
    Failed,
    Memory,
}

impl From<Failed> for StoreFault {
    ghost from_gives = { λ _ fault. fault ≡ store.Failed };

    fn from(_: Failed) -> StoreFault {
        StoreFault::Failed
    }
}

impl From<Memory> for StoreFault {
    ghost from_gives = { λ _ fault. fault ≡ store.Memory };

    fn from(_: Memory) -> StoreFault {
        StoreFault::Memory
    }
}

/// Why a commit wasn't made. After `DiskFault` only a new opening answers; after `Memory` nothing was written.
#[derive(Clone, Copy, Debug, PartialEq, Eq)]
pub enum JournalFault {
    DiskFault,
    Memory,
}

impl From<Failed> for JournalFault {
    ghost from_gives = { λ _ fault. fault ≡ journal.DiskFault };

    fn from(_: Failed) -> JournalFault {
        JournalFault::DiskFault
    }
}

impl From<Memory> for JournalFault {
    ghost from_gives = { λ _ fault. fault ≡ journal.Memory };

    fn from(_: Memory) -> JournalFault {
        JournalFault::Memory
    }
}
