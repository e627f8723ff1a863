//! The walk of one side of a partition, as definitions with laws. Of storage it knows no more than which cell stands at a
//! home, which is a cell's address within the side.
//!
//!     root row ──► root ──twin──► next root of the anchor (PHDAM alone)
//!                   │
//!                   ├─ first child of type 2 ──► C ──twin──► C
//!                   │                            └─ first child of type 3 ──► G
//!                   └─ first child of type 4 ──► U
//!
//! A record is a finite tree: the twins behind a pointer, and below each segment the twins of each of its child types
//! (`Tree`). A tree hangs in cells where each cell is what the tree says. `Listing` has its rows in hierarchic sequence,
//! each with its home; `Pointers` what a changed pointer makes of it; `Side` which cells and rows of a root set are a side,
//! part by part of the rules of a sound volume.
//!
//! The laws: `walk`, `listed`, `records`, `named`, `firsts`, `root_rows` of changed pointers, in cells and in lists;
//! `parents`, `siblings`, `orders` of the sequence; `leads` of pointers, `by_key` of roots; `side_changes`, `one_proof` of a side; `volume`, `one_side`,
//! `in_records` of all sides together; `examples` has sides of three levels.
//!
//! Each law is the contract of a function without code; a proof above calls it and has the law.
#![tactic(auto)]

mod by_key;
mod examples;
mod firsts;
mod in_records;
mod leads;
mod listed;
mod named;
mod one_proof;
mod one_side;
mod orders;
mod parents;
mod records;
mod root_rows;
mod siblings;
mod side_changes;
mod volume;
mod walk;

pub use by_key::roots_go_by_rows;
pub use examples::{broken_sides, changes_make_sides, example_sides, sides_make_forests};
pub use firsts::{
    first_children_are_inserted, first_roots_are_inserted, later_children_are_inserted,
    later_roots_are_inserted,
};
pub use in_records::{entries_hang_in_records, sides_list_their_cells};
pub use leads::{children_are_first, pointers_lead_on, twins_are_next};
pub use listed::{
    cuts_are_spans, new_segments_are_listed, new_twins_stand_behind_spans,
    replaced_content_is_listed,
};
pub use named::{homes_are_names, inserted_between, new_twins_are_inserted};
pub use one_proof::sides_have_one_proof;
pub use one_side::changes_of_one_side;
pub use orders::{child_codes_rise, child_places, roots_go_by_key};
pub use parents::parents_stand_first;
pub use records::{cuts_keep_records, new_segments_keep_records, replaced_content_keeps_records};
pub use root_rows::{homes_are_listed, rows_come_and_go, seen_follows};
pub use siblings::siblings_rise;
pub use side_changes::changed_sides;
pub use volume::sides_are_forests;
pub use walk::{
    changes_outside_leave, cuts_hang, met_cells_stand, new_segments_hang, replaced_content_hangs,
    trees_are_unique,
};

#[cfg(test)]
mod tests;
