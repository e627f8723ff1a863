//! Tests of load rows over a list in memory.
//!
//! - `list.rt`: a taker over a list, which tells its rows;
//! - `place.rt`, `entries.rt`, `need.rt`, `roots.rt`: where a row goes, whether its entries are free, what it may take, and
//!   whether a root has its key, over `path.rt` and `segment.rt`;
//! - `schemas.rt`: schemas of texts;
//! - `cases.rt`: loads into empty lists, and what they leave;
//! - `tests.rt`: the databases and the cases.
#![tactic(auto)]

mod cases;
mod entries;
mod list;
mod need;
mod path;
mod place;
mod roots;
mod schemas;
mod segment;

pub use cases::{Case, first_wrong, refuses_a_second_load};
pub use list::ListTaker;
pub use schemas::schema_of;

#[cfg(test)]
mod tests;
