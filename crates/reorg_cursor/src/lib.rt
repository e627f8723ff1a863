//! The states of an online reorganization: how one partition stands, and what the commands make of that.
//!
//! - `refusal`: why a command is refused by the state of its partition;
//! - `commands`: a reorganization begun, paused, resumed and ended;
//! - `units`: how far the cursor has come, and how a unit moves it;
//! - `laws`, `event_laws`: what units and events keep; `examples`: reorganizations that there are;
//! - `scripts`: REORG lines by their text, and scripts of them that there are.
//!
//! `specs/State.antt` has the states, `specs/Groups.antt` the groups in which records are copied, `specs/Events.antt` the
//! REORG commands as events on the list, `specs/Lines.antt` their lines in the language of a run, and `specs/Taking.antt`
//! scripts of them.
#![tactic(auto)]

mod commands;
mod event_laws;
mod examples;
mod laws;
mod refusal;
mod scripts;
mod units;

pub use commands::{end, goes_on, pause, resume, start};
pub use event_laws::{
    events_change_one, events_fit, needs_are_free, reorg_lines_leave_the_rest,
    unreplied_events_fall,
};
pub use examples::reorganizations_are_examples;
pub use laws::{
    cursors_are_of_the_last, cursors_rise, finish_ends, states_fit, units_reach_one_end,
    units_take_first,
};
pub use refusal::Refusal;
pub use scripts::{
    needs_are_examples, other_lines_are_passed, scripts_are_examples, scripts_are_runs,
    spelled_lines_are_events, unbuilt_is_an_example, unbuilt_lines_are_refused,
};
pub use units::{groups_asked, is_done, move_cursor};

#[cfg(test)]
mod tests;
