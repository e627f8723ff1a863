//! Tests of scripts of calls over a list of rows in memory: gets and changes, of one session and of several.
//!
//! - `desk`: a database and its open sessions, line by line: each call is decided by looks, and its change is made;
//! - `rows`: what a change makes of the list of rows, and its rows as elements;
//! - `scripts`: scripts, and the first line whose reply isn't so;
//! - `tests`: the texts of the databases of the tests, and scripts over them;
//! - `worked`: scripts that go on with what the one before left; `refused`: each refusal of a change; `twins`: where new
//!   rows go; `others`: what changes leave of other sessions.
#![tactic(auto)]

mod desk;
mod rows;
mod scripts;

pub use desk::Desk;
pub use rows::{changed, elements_of};
pub use scripts::{Case, first_wrong};

#[cfg(test)]
mod others;
#[cfg(test)]
mod refused;
#[cfg(test)]
mod tests;
#[cfg(test)]
mod twins;
#[cfg(test)]
mod worked;
