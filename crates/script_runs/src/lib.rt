//! Runs of scripts: what the lines of a script do, said over any language of lines and any taker of them, and the loop
//! that reads a source, cuts its text into lines, and hands them to the taker one by one.
//!
//! - `taker`: `LineTaker`, what takes one line at a time, and tells its rows, partition states and free blocks;
//! - `script`: the loop over the source;
//! - `ending`: how a run ends, and its exit status.
//!
//! `specs/Language.antt` has events and runs, `specs/Stops.antt` what a stop may leave of one, `specs/TakerView.antt` what
//! is seen of a taker, `specs/Taken.antt` what it did with lines, `specs/Faults.antt` what its faults come from and how
//! they leave it, and `specs/Script.antt` what a whole script did.
#![tactic(auto)]

mod ending;
mod script;
mod taker;

pub use ending::Ending;
pub use script::{LIMIT, PIECE, read_piece, run_script};
pub use taker::{EngineFault, LineTaker};
