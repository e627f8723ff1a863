//! Runs of calls: what the lines of a script do to a list of segments, the open sessions and the states of the
//! partitions. It is a language of lines for `script_runs`, and knows nothing of blocks.
//!
//! - `state`: what lines change;
//! - `sessions`: sessions by their scripts and names, and how they are opened;
//! - `laws`: what lines leave alone.
//!
//! `specs/Sessions.antt` has the open sessions and what a PCB line is answered, `specs/Steps.antt` what a call is answered
//! and leads to, `specs/Lines.antt` the language.
#![tactic(auto)]

mod laws;
mod sessions;
mod state;

pub use laws::{each_line_is_answered, other_lines_leave_the_list};
pub use sessions::{SESSIONS, is_named, open_session, session_of};
pub use state::{CallState, OpenSession, copied_sessions};
