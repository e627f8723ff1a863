//! The rules of a sound volume that no page is needed for, and what an event may do to them. There is no code here:
//! definitions on functions and lists, and laws, each the contract of a function without code.
//!
//! - `specs/View.antt`: a partition as a map from home to segment, with its indirect list, its state and its rows;
//! - `specs/Target.antt`: where a pointer to a segment leads;
//! - `specs/Rules.antt`: the rules 6, 8, 9 and 10 of a partition;
//! - `specs/Tests.antt`: the same as tests over lists of homes and names;
//! - `specs/Volume.antt`: the partitions together, their list, and the rows of the indexes;
//! - `specs/Hanging.antt`: which record a segment stands in;
//! - `specs/Rising.antt`: addresses that rise along the sequence;
//! - `specs/Delta.antt`, `specs/Events.antt`: what an event does, and what it owes;
//! - `specs/Sides.antt`: the rules 4 and 7, and what an event owes for the rules 4, 5 and 7;
//! - `specs/SideEvents.antt`: what the events make of the rows of the sides;
//! - `specs/SideForest.antt`: the sides one behind another, as a forest;
//! - `specs/Examples.antt`, `specs/Applied.antt`: volumes that there are, and events on them.
#![tactic(auto)]

mod deltas;
mod events;
mod examples;
mod pointers;
mod rising;
mod sides;
mod telling;

pub use deltas::{
    deltas_keep_homes, deltas_keep_rule_6, deltas_keep_rule_8, deltas_keep_rule_9,
    deltas_keep_rule_10, deltas_keep_rules,
};
pub use events::{
    deletions_are_lawful, insertions_are_lawful, reorganizations_turn, replacements_are_lawful,
    switches_are_lawful, turns_are_lawful, units_are_lawful,
};
pub use examples::{
    events_can_happen, example_sides_are_broken, example_sides_are_kept, examples_are_broken,
    examples_are_kept,
};
pub use pointers::{
    entries_hang, gone_are_unpointed, pointers_hang, pointers_lead_home, roots_stand,
};
pub use rising::rising_goes_on;
pub use sides::{
    deltas_keep_rule_4, deltas_keep_rule_5, deltas_keep_rule_7, events_keep_order,
    events_move_rows, sides_act_alike, sides_are_a_forest,
};
pub use telling::{alike_hold_the_same, holds_one, rules_pass_tests, tests_tell};

#[cfg(test)]
mod tests;
