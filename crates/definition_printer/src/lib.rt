//! The canonical texts of a schema: its DBD source and its partition file.
//!
//! - `dbd` over `segment`, `field`, `index`: the statements;
//! - `wrap`: statements on lines of at most 71 bytes;
//! - `partitions`: the partition file.
#![tactic(auto)]

mod dbd;
mod field;
mod index;
mod partitions;
mod segment;
mod wrap;

pub use dbd::print_dbd;
pub use partitions::print_partitions;
