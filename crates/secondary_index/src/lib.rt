//! The entries of secondary indexes: `entry.rt` has an entry and its row, `fault.rt` why one isn't added, `lengths.rt` the
//! lengths that a definition gives them, `index.rt` an index over the pages of a shelf, `look.rt` the entries beside a key,
//! `change.rt` entries that come, go and move, `resolve.rt` where one's target is, `heal.rt` one whose pointer is healed,
//! `laws.rt` that they rise by key.
#![tactic(auto)]

mod change;
mod entry;
mod fault;
mod heal;
mod index;
mod laws;
mod lengths;
mod look;
mod resolve;

pub use entry::Entry;
pub use fault::AddFault;
pub use index::Psindex;
pub use laws::entries_rise;
