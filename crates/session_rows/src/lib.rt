//! Tests of what a change leaves of the sessions that other users have open, over a list of three levels in memory.
//!
//! - `example`: the list, and sessions and changes over it;
//! - `kept`: deletions, replacements and an insertion, and each kind of place.
#![tactic(auto)]

mod example;

pub use example::{deletion, insertion_of_g, left, place, replacement, standing};

#[cfg(test)]
mod kept;
