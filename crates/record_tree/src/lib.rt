//! The records of one side of a partition, over any `Shelf`: found by their root keys and by pointers, inserted, cut
//! out and replaced.
//!
//! A side has its cells (`SideCells`) and its root set (`KeyedSet`), whose rows lead from a root key to the address of
//! a root. Below a root go pointers: to the first child of each child type, and from twin to twin.
//!
//!     root set          cells
//!     001 -> 16 ──►  R at 16 ──first child──► C at 48 ──twin──► C at 72
//!     007 -> 96 ──►  R at 96
//!
//! A call is said by what it makes of the list of rows, each with its home, which is the address of its cell: the
//! operation on lists that `hal_schema` defines, while every other row keeps its home. That the cells are such a side is
//! the condition of each call, and each gives it back. After a fault the shelf is to be forgotten.
//!
//! `records.rt` has `Records`, `open.rt` opens them; `sides.rt` what a definition says of a side
//! `roots.rt` finds roots by key, `links.rt` cells, and what they lead to; `walk.rt` goes through all rows; `replace.rt` replaces a content
//! `insert.rt` adds a row at its `place.rt`, `append.rt` behind all its twins: below a row (`dependent.rt`) or as a root
//! (`root_row.rt`). `store.rt` stores the cell of a `new_row.rt` where it gets `room.rt`; `pointer.rt` leads to a dependent
//! `remove.rt` cuts spans and records out: `parting.rt` sets the pointer past them, `descent.rt` ends their cells
#![tactic(auto)]

mod append;
mod dependent;
mod descent;
mod insert;
mod links;
mod new_row;
mod open;
mod parting;
mod place;
mod pointer;
mod records;
mod remove;
mod replace;
mod room;
mod root_row;
mod roots;
mod sides;
mod store;
mod walk;

pub use place::Place;
pub use records::Records;
pub use walk::HomedRow;
