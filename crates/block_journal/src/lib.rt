//! Blocks that are kept through a stop of the machine: a commit is all or nothing at every moment.
//!
//! - `body.rt`: the body of an open journal, as an opening reads it;
//! - `change.rt`: one change: a block and its number;
//! - `device.rt`: writes that are on the disk once they have returned;
//! - `fault.rt`: why the blocks of a site weren't opened;
//! - `journal.rt`: `Journal`: the blocks of the last commit, and what is staged;
//! - `laws.rt`: what a live journal tells of the image that it stands on;
//! - `open.rt`: what an opening reads, and how it makes an image ready;
//! - `protocol.rt`: the four steps of a commit, and what they write;
//! - `redo.rt`: the redo of an open journal;
//! - `staged.rt`: the blocks that are staged, and the list that they are put into.
#![tactic(auto)]

mod body;
mod change;
mod device;
mod fault;
mod journal;
mod laws;
mod open;
mod protocol;
mod redo;
mod staged;

pub use fault::{OpenFault, OpenWhy};
pub use journal::Journal;
