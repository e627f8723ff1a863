//! Calls on a session as code: the tests that refusals by a call's text and its session are made of.
//!
//! - `functions`: which function a call names;
//! - `form`: the form of a call's SSAs and values;
//! - `options`: what a session's processing options allow;
//! - `path`: which types are below one another;
//! - `names`: what names, codes and a session's index stand for in a schema;
//! - `subjects`: what clauses speak of; `refusals`: the first refusal by text and session;
//! - `clauses`: which elements make clauses true; `judged`: which meet a list of SSAs; `scan`: the first that does;
//! - `route`: the path to a place; `place`: whether two are one, and which record is before; `gets`: what gets find, `below`:
//!   what GNP finds, and `high`: whether they ask above every high key; `keyed`: the root key that a GU asks for; `answer`:
//!   their decision.
//! - `first`: the first element that SSAs lead to, and the elements on the path to a place, for calls that insert.
//!
//! `specs/Scan.antt` has what a scan finds, `specs/Shown.antt` what a get gives of it; `Keyed`, `Below` and `Passed` how often
//! gets look.
#![tactic(auto)]

mod answer;
mod below;
mod clauses;
mod first;
mod form;
mod functions;
mod gets;
mod high;
mod judged;
mod keyed;
mod names;
mod options;
mod path;
mod place;
mod refusals;
mod route;
mod scan;
mod subjects;

pub use answer::decide_get;
pub use clauses::fitted;
pub use first::{any_asks_high_root, element_on_path, first_that_meets};
pub use form::{asks_data, asks_last, has_odd_code, has_odd_operator, is_bare, is_unfit, last_of};
pub use functions::{
    is_delete, is_get, is_hold, is_insert, is_next, is_replace, is_unique, is_within_parent,
};
pub use names::{code_named, index_of};
pub use options::is_not_allowed;
pub use path::{is_below_type, is_in_subtree};
pub use refusals::text_refusal;
