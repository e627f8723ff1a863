//! The data sets of a volume: pages over blocks, the heads that name their data sets, and the control rows that
//! say how each partition stands.
//!
//! `volume` has the volume and how it is read, by `load` (`states` the control rows, `scan` and `order` the heads,
//! `fault` why it isn't); `shelf` its pages, over `table`, `place` and `look`; `set_state` a partition's state, by `change` and `leave`; `store` what is committed
//! and forgotten, by `kept`; `laws` what it holds in memory, as facts of its blocks.
#![tactic(auto)]

mod change;
mod fault;
mod kept;
mod laws;
mod leave;
mod load;
mod look;
mod order;
mod place;
mod scan;
mod set_state;
mod shelf;
mod states;
mod store;
mod table;
mod volume;

pub use fault::{VolFault, VolWhy};
pub use hal_base::PartState;
pub use volume::Volume;
