//! Laws of forests: what the definitions of `hal_schema` say of every schema and every list of rows. Each law is
//! the contract of a function without code; a proof above calls it and has the law.
//!
//! - `keeping.rt`: what keeps a well-formed forest;
//! - `places.rt`: where an insertion goes;
//! - `paths.rt`: paths by levels, and keys along them;
//! - `spans.rt`: spans, and what cutting one out leaves;
//! - `entries.rt`: the entries of an index;
//! - `joining.rt`: lists in sequence, one behind another;
//! - `examples.rt`: a forest of three levels that meets the laws.
#![tactic(auto)]

mod entries;
mod examples;
mod joining;
mod keeping;
mod paths;
mod places;
mod spans;

pub use entries::{entries_are_in_key_order, entries_are_of_sources};
pub use examples::{empty_is_forest, example_is_forest, example_meets_the_laws};
pub use joining::{
    changes_stay_within, forests_are_sequences, insertions_stay_within, joining_is_an_example,
    orders_join, sequences_join,
};
pub use keeping::{cut_keeps, insertion_keeps, replacement_keeps};
pub use paths::{
    keys_are_long, paths_append, paths_are_ancestries, paths_are_by_parents, paths_begin_anew,
    paths_go_on,
};
pub use places::insertions_are_by_rule;
pub use spans::{cuts_are_spans, cuts_leave_anchors, spans_are_below};

#[cfg(test)]
mod tests;
