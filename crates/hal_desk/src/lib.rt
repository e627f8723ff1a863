//! The top calls of haldb: a command's words, a source and a site in, a status and the site out.
//!
//! - `desk`: `run`, with the theorem of the program;
//! - `words`, `grammar`: which words are a command, and how clap parses them; `volume`: which file they name;
//! - `define`, `source`: a definition is checked, and a source is taken in whole;
//! - `list_run`: a script over a list of segments in memory; `list_taker`: the taker of its lines, over `call_list`, which
//!   has the list and the sessions; `sample`: the sample database over which scripts run.
//!
//! The loop over the source, and what a run and a stop of it are, stand in `script_runs`.
#![tactic(auto)]

mod call_list;
mod define;
mod desk;
mod grammar;
mod list_run;
mod list_taker;
mod sample;
mod source;
mod volume;
mod words;

pub use call_list::CallList;
pub use desk::{Ended, run};
pub use list_run::run_list;
pub use list_taker::ListTaker;
pub use sample::kdb;
pub use volume::{makes_file, path_of};
pub use words::{Command, read_command};
