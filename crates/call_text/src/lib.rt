//! Script lines and reply lines as text: the lines that a script may have, read and printed, and the text of
//! a reply.
//!
//! - `line`, `reply`: what a line says, and what a reply says;
//! - `reading` over `words`, `read_values`, `read_ssas`: a line's text as a line, or the cause of its first fault;
//! - `printing`, `replying` over `values`: lines and replies as text;
//! - `fault`: why a line isn't read.
#![tactic(auto)]

mod fault;
mod line;
mod printing;
mod read_ssas;
mod read_values;
mod reading;
mod reply;
mod replying;
mod values;
mod words;

pub use line::{Call, Clause, Command, Line, Open, Ssa, Value};
pub use printing::print_line;
pub use reading::{lines_are_spelled, one_cause, one_reading, read_line};
pub use reply::{PartOut, Reply, SegOut};
pub use replying::reply_line;

#[cfg(test)]
mod tests;
