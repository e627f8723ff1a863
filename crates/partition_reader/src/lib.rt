//! The partition file, read into the raw definitions of its partitions. The file is TOML: `blocks`, and a
//! `[[partition]]` table for each partition.
//!
//! - `file`: the whole file, or the first table that breaks a rule;
//! - `table`, `value`: one table, and what its values say.
#![tactic(auto)]

mod file;
mod table;
mod value;

pub use file::read_partitions;

#[cfg(test)]
mod tests;
