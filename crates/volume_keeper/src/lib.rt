//! What holds a state on blocks, and takes the lines of a script: the place where the two halves of the stop theorem meet.
//!
//! - `keeper`: `Keeper`, which does one event of a line on a state that blocks hold. Its `stage` names no moment, since
//!   what it changes is only staged; its `commit`, `forget` and `say` name no rule of soundness, since what they leave at
//!   each moment is one of two lists of blocks, and what these hold is a law of the keeper;
//! - `kept_lines`: the taker of lines over any keeper: stage, commit, say.
//!
//! `specs/KeeperView.antt` has what is seen of a keeper and what its blocks hold, `specs/Calls.antt` what its calls make
//! and leave.
#![tactic(auto)]

mod keeper;
mod kept_lines;

pub use keeper::{Keeper, Staged};
pub use kept_lines::KeptLines;
