ghost use Rattle.std.specs.Prelude.{◌≡◌};
ghost use Rattle.segment_blocks.specs.declared.tile.BlockFault.TheVariants.{Memory as OutOfMemory};

use hal_base::{Bytes, Ilk, List, Memory};

/// A segment as it stands in a block: its prefix, and its content. Addresses are those of cells, and 0 is none.
#[derive(Debug, Drop)]
pub struct Cell {
    /// A unit of a reorganization has copied the segment into the other data set.
    pub copied: bool,
    /// The segment code: the place of its type in definition order, from 1.
    pub code: u8,
    pub name: Ilk,
    /// The next twin. IMS: physical twin forward pointer.
    pub twin: u32,
    /// The first child of each child type, in definition order. IMS: physical child first pointers.
    pub children: List<u32>,
    pub content: Bytes,
}

/// A part of a block. `at` is its offset in the block.
#[derive(Debug, Drop)]
pub enum Tile {
    /// Free space, its head of 4 bytes among its length.
    Hole { at: u16, len: u16 },
    Seg { at: u16, cell: Cell },
}

/// Why a block gave no tiles.
#[derive(Clone, Copy, Debug, PartialEq, Eq)]
pub enum BlockFault {
    /// The first offset in the block at which no tile begins.
    BadTile { offset: u16 },
    Memory,
}

impl From<Memory> for BlockFault {
    ghost from_gives = { λ _ e. e ≡ OutOfMemory };

    fn from(_: Memory) -> BlockFault {
        BlockFault::Memory
    }
}
