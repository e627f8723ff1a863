//! What every crate of haldb speaks of: bytes and lists, names and keys, numbers in blocks, and the
//! traits of the outside, whose meanings the layers above are proved against.
//!
//! - `bytes`, `list`: byte strings and lists, whose every growth may be refused memory;
//! - `name`: names of segments, fields and databases, on eight bytes;
//! - `numbers`, `text`: numbers in blocks, and bytes and numbers of texts;
//! - `place`: names of segments for life, shapes of cells, states of partitions;
//! - `outcome`: why a call of the outside or of a layer over it failed;
//! - `source`, `site`: where text comes from, and where a volume stands and replies are said;
//! - `live`: what may be used no more after a fault of its disk;
//! - `blocks`, `store`: blocks as a list, and commits of them that are all or nothing;
//! - `pages`: the same blocks by data set and page.
//!
//! What calls over a shelf or over blocks leave is said by the records of `specs/ShelfCalls.antt` and
//! `specs/StoreCalls.antt`, which the crates above share.
#![tactic(auto)]

mod blocks;
mod bytes;
mod list;
mod live;
mod name;
mod numbers;
mod outcome;
mod pages;
mod place;
mod site;
mod source;
mod store;
mod text;

pub use blocks::{BLOCK, Blocks};
pub use bytes::{Bytes, Key};
pub use list::List;
pub use live::Live;
pub use name::{Name8, upper_case};
pub use numbers::{get16, get32, put16, put32};
pub use outcome::{Failed, JournalFault, Memory, PageFault, StageFault, StoreFault};
pub use pages::{SetId, Shelf, empty_page};
pub use place::{Cursor, Ilk, PartState, Shape};
pub use site::Site;
pub use source::Source;
pub use store::Store;
pub use text::{are_digits, are_printable, is_printable, number_of, put_number};

#[cfg(test)]
mod tests;
