//! What the walk of the sides of a partition gives to the rules that need no walk: laws from `record_walk`'s chains of cells
//! to `volume_rules`' segments, rows and root sets. There is no code here.
//!
//! - `specs/Parts.antt`: a partition as chains of cells, and the view that it is to the rules;
//! - `specs/Laws.antt`: what such a view keeps;
//! - `rows.rt`, `volume.rt`: the laws, of one partition and of all;
//! - `specs/Examples.antt`, `examples.rt`: partitions that there are.
#![tactic(auto)]

mod examples;
mod rows;
mod volume;

pub use examples::walked_examples;
pub use rows::{
    walked_names_differ, walked_parts_keep_rule_4, walked_parts_keep_rule_7, walked_rows_stand,
    walked_sides_are_kept,
};
pub use volume::{
    walked_entries_hang, walked_targets_hang, walked_volumes_are_forests, walks_are_listed,
};

#[cfg(test)]
mod tests;
