//! Tests of extended pointers, of the indirect list and of secondary indexes over a shelf in memory: `kept.rt` has a list
//! that stays open, `index.rt` an index, `laws.rt` that a target is that of the volume's rules, `lists.rt`, `pointers.rt`,
//! `indexes.rt` and `targets.rt` the tests.
#![tactic(auto)]

mod index;
mod kept;
mod laws;

pub use index::OpenIndex;
pub use kept::OpenList;
pub use laws::a_target_is_that_of_the_rules;

#[cfg(test)]
mod indexes;
#[cfg(test)]
mod lists;
#[cfg(test)]
mod pointers;
#[cfg(test)]
mod targets;
