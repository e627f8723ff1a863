//! Examples that join crates of calls: over a forest of three levels with two indexes each status comes, gets find and
//! leave what they should, and changes are those that were asked. Each is the contract of a function without code; no
//! crate stands on this one.
#![tactic(auto)]

mod examples;

pub use examples::{changes_follow, gets_find, statuses_come};
