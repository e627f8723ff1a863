//! Tests of gets over elements in memory, a session's calls one after the other.
//!
//! - `elements.rt`: a walk over elements that it doesn't tell, which counts its looks;
//! - `databases.rt`: schemas of texts, and elements: a few, of fifteen levels, of many records, and of a
//!   wide one;
//! - `scripts.rt`: scripts of one session, and the first line whose reply or looks aren't so;
//! - `tests.rt`: the scripts; `worked.rt`: those of a sample database, between whose gets others changed it.
#![tactic(auto)]

mod databases;
mod elements;
mod scripts;

pub use databases::{Given, deep, given, many, place_of, schema_of, wide};
pub use elements::Elements;
pub use scripts::{Case, Counted, first_longer, first_wrong, opened};

#[cfg(test)]
mod tests;
#[cfg(test)]
mod worked;
