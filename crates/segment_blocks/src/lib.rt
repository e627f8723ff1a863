//! The data blocks that hold segments. A block has 4,096 bytes:
//!
//!     0     header, of which this crate reads nothing
//!     16    tiles, one behind the other, up to 4,096
//!
//!     hole      0  0   2  length            4  zeros
//!     segment   0  1, or 2 where copied     1  code    2  length
//!               4  name: address in 4 bytes, partition in 2, number in 2
//!               12 the twin's address       16 an address for the first child of each child type
//!               .. content                  .. zeros up to a multiple of 4
//!
//! Numbers are big-endian. A hole's length is a multiple of 4, and no two holes touch. A segment's length is that
//! of its type's shape. So a body has at most one tiling, and a block that has none is known by the first offset
//! at which no tile begins.
//!
//! - `tile.rt`: `Tile`, `Cell`, and why a block has no tiles;
//! - `size.rt`: how long a cell of a shape is;
//! - `head.rt`, `parse.rt`: what begins at an offset, and the tiles of a block;
//! - `one.rt`: one cell, read at its offset;
//! - `space.rt`, `measure.rt`: how much room a block has, and where;
//! - `write.rt`: a cell or a hole written into a block;
//! - `laws.rt`: tiles are a function of the bytes, and cells one of the offset.
#![tactic(auto)]

mod head;
mod laws;
mod measure;
mod one;
mod parse;
mod size;
mod space;
mod tile;
mod write;

pub use laws::{cells_by_offset, one_tiling, others_stand_around};
pub use measure::measure_block;
pub use one::{find_at, read_at};
pub use parse::parse_block;
pub use size::cell_size;
pub use space::Space;
pub use tile::{BlockFault, Cell, Tile};
pub use write::{write_cell, write_hole};

#[cfg(test)]
mod tests;
