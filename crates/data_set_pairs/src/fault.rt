// Why a volume wasn't read.
ghost use Rattle.std.specs.Prelude.{◌≡◌};
ghost use Rattle.data_set_pairs.specs.declared.fault.VolWhy.TheVariants as why;

use hal_base::{Failed, Memory};
use std::alloc::AllocFailed;

/// Why a volume wasn't read: its control rows or the heads of its data blocks break soundness rule 1, or with these
/// in order the page numbers of a data set break rule 2 (`Damaged`), or the disk failed.
#[derive(Clone, Copy, Debug, PartialEq, Eq)]
pub enum VolWhy {
    Damaged(u8),
    Failed,
    Memory,
}

/// A refused reading, with the blocks that it hands back.
#[derive(Drop)]
pub struct VolFault<B> {
    pub why: VolWhy,
    pub blocks: B,
}

impl From<Failed> for VolWhy {
    ghost from_gives = { λ _ fault. fault ≡ why.Failed };

    fn from(_: Failed) -> VolWhy {
        VolWhy::Failed
    }
}

impl From<Memory> for VolWhy {
    ghost from_gives = { λ _ fault. fault ≡ why.Memory };

    fn from(_: Memory) -> VolWhy {
        VolWhy::Memory
    }
}

impl<T: Drop> From<AllocFailed<T>> for VolWhy {
    ghost from_gives = { λ _ fault. fault ≡ why.Memory };

    fn from(_: AllocFailed<T>) -> VolWhy {
        VolWhy::Memory
    }
}
