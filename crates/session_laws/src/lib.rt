//! Laws that join sessions and forests: what changes keep of a list and of the sessions over it. Each law is the contract
//! of a function without code; a proof above calls it and has the law.
#![tactic(auto)]

mod laws;

pub use laws::{changes_keep_a_forest, kept_sessions_stand, new_rows_stand};

#[cfg(test)]
mod tests;
