//! Tests of the front of a volume over sites in memory: a volume without records is written, and its definition is read
//! back. No crate stands on it.
//!
//! - `given.rt`: schemas of texts, and what a run of `define` leaves of a site;
//! - `tests.rt`: the tests.
#![tactic(auto)]

mod given;

pub use given::{Found, defined, read, schema_of};

#[cfg(test)]
mod tests;
