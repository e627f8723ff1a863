//! Tests of the records of a side over a shelf in memory that tells nothing: `side.rt` lays out a side of three levels,
//! `calls.rt` opens it and makes one call, `walks.rt` compares what calls answer, `cuts.rt` what they leave of the cells;
//! `inserts.rt` opens it and adds a row, `grown.rt` compares what comes of that; `both_sides.rt` opens either side, `deep.rt`
//! has a record of fifteen levels, `letters.rt` a side of two letters; `tests.rt` are the tests. No crate stands on it.
#![tactic(auto)]

mod both_sides;
mod calls;
mod cuts;
mod deep;
mod grown;
mod inserts;
mod letters;
mod side;
mod walks;

pub use both_sides::{Side, cell_at, child_at, opened_at};
pub use calls::{child, first_root, remove, replace, retire, root, twin, walk};
pub use cuts::{cuts_leaf, cuts_middle_twin, cuts_record, retires_record};
pub use deep::{builds_levels, changes_lowest, cuts_levels, moves_record};
pub use grown::{appends_a_row, grows_levels, grows_twins, walks_levels};
pub use inserts::{append, insert, load};
pub use letters::crosses_letters;
pub use side::{cell_of, mark_at, opened, place, put_root, set_child, set_twin};
pub use walks::{changes_content, finds_dependents, finds_roots, is_laid_out};

#[cfg(test)]
mod tests;
