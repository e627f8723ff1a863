//! Sets of rows by key: secondary indexes, root anchors and indirect lists. A set's rows stand in pages of
//! 4,096 bytes:
//!
//!     0     header of the page, whose bytes 8 and 9 count the rows
//!     16    rows that rise by key, one behind the other: a key and a body of the set's lengths
//!     ..    zeros up to 4,096
//!
//! The calls on one page take the page as it stands, and move no row that needn't move. A `KeyedSet` is the set over the
//! pages of a shelf: no two pages' ranges of keys overlap, so a key belongs to one page, which is found by the first
//! keys that are kept in memory.
//!
//! - `set.rt`, `row.rt`, `index.rt`: `KeyedSet`, the lengths of its rows, and the first keys that it keeps;
//! - `open.rt`, `opening.rt`, `check.rt`: a set is opened: its pages are read, taken in and checked;
//! - `seek.rt`, `get.rt`, `neighbours.rt`, `fetch.rt`: a key is found, its row, and the rows next to it, by pages that are read;
//! - `put.rt`, `second.rt`: a row is put in, over another or only where none has its key; the second page that it may take;
//! - `overwrite.rt`, `remove.rt`: a part of a row's body is written over, a row is taken away;
//! - `page.rt`, `page_edits.rt`, `write.rt`: one page, what is done to its rows, and what the index keeps of a page put back;
//! - `laws.rt`: what the words of the contracts say as maps.
#![tactic(auto)]

mod check;
mod fetch;
mod get;
mod index;
mod laws;
mod neighbours;
mod open;
mod opening;
mod overwrite;
mod page;
mod page_edits;
mod put;
mod remove;
mod row;
mod second;
mod seek;
mod set;
mod write;

pub use laws::{
    a_row_is_put_over_another, each_change_is_of_one_key, others_leave_a_set_open, rows_rise,
};
pub use row::RowShape;
pub use set::KeyedSet;

#[cfg(test)]
mod tests;
