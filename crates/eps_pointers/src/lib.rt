//! Extended pointers of secondary indexes, and the indirect list of a partition, by which they lead to a segment whose
//! cell has moved: `pointer.rt` has the two records and their bytes, `target.rt` the generation in which a record stands,
//! `indirect_list.rt` the list over the pages of a shelf, `laws.rt` that the bytes read back and that an entry is changed
//! by its own key alone.
#![tactic(auto)]

mod indirect_list;
mod laws;
mod pointer;
mod target;

pub use indirect_list::IndirectList;
pub use laws::{bytes_read_back, each_entry_is_its_own};
pub use pointer::{Eps, Ile, list_key, read_eps, read_ile, write_eps, write_home, write_ile};
pub use target::generation;
