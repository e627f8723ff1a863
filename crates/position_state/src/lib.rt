//! Sessions and what they see: where a session stands in its view of the list, and what a change leaves of it.
//!
//! - `session`: anchors and sessions, and their copies;
//! - `kept`: what the change of another session leaves of one, by looks;
//! - `laws`: what the definitions of views and sessions keep;
//! - `spot`: what a look shows of a segment, and the changes that calls make;
//! - `walk`: `Walk`, looks at a view, whatever it stands on;
//! - `list_walk`: looks at a list of rows in memory, over `plain_view` with `row_places` (its plain view), `list_view` (its
//!   views by indexes), `list_entries` (their entries), `path` (paths of rows) and `elements` (what is found in a view);
//! - `list_change`: changes of that list, over `list_place` (where a new row goes) and `twins` (what rows are to one another).
//!
//! `specs/View.antt` has views, `specs/Keep.antt` what a change leaves of a session, `specs/Lawful.antt` what a session and
//! a change must be, by names.
#![tactic(auto)]

mod elements;
mod kept;
mod laws;
mod list_change;
mod list_entries;
mod list_place;
mod list_view;
mod list_walk;
mod path;
mod plain_view;
mod row_places;
mod session;
mod spot;
mod twins;
mod walk;

pub use laws::{anchors_are_of_both, anchors_stand, anchors_stay, rows_are_places, sessions_stay};
pub use list_walk::ListWalk;
pub use session::{Anchor, Session};
pub use spot::{Change, Spot};
pub use walk::{Walk, WalkFault};

#[cfg(test)]
mod tests;
