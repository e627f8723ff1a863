//! The texts of definitions, both ways, and that what was printed reads back: `print` has the two calls that print,
//! with this theorem; the two that read are those of the readers.
#![tactic(auto)]

mod print;

pub use dbd_reader::read_dbd;
pub use hal_schema::TextFault;
pub use partition_reader::read_partitions;
pub use print::{print_dbd, print_partitions};

#[cfg(test)]
mod tests;
