// What breaks the rules of a definition. Each function adds the places at which one rule, or a part of it, is
// broken.
mod counts;
mod indexes;
mod names;
mod parents;
mod parts;
mod types;

pub(crate) use counts::counts_passed;
pub(crate) use indexes::{index_of, indexes_broken};
pub(crate) use names::names_repeated;
pub(crate) use parents::{code_of, misplaced_roots, unknown_parents};
pub(crate) use parts::{anch_of, factors_broken, highs_broken, numbers_broken, rbn_of, rm_of};
pub(crate) use types::{letters_unknown, root_key_broken, sequence_broken, sizes_broken};
