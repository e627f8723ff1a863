//! What the blocks of a volume are: control rows, which say how each partition stands, and heads of data blocks, which
//! name their data sets. The definitions go over a list of blocks: first the control blocks, then the data blocks.
//!
//! - `control.rt`: control rows, written and read;
//! - `head.rt`: heads of data blocks, and whether a block is free or live.
#![tactic(auto)]

mod control;
mod head;

pub use control::{ROW, read_row, row_of};
pub use head::{Head, has_cells, head_of, is_free, is_left, is_live, is_live_set};

#[cfg(test)]
mod tests;
