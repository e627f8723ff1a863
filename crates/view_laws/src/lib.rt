//! Laws of views in hierarchic sequence: what the view of a well-formed forest keeps. Each law is the contract of a function
//! without code; a proof above calls it and has the law.
//!
//! - `laws`: places, levels, records and types along a view.
#![tactic(auto)]

mod laws;

pub use laws::{
    levels_are_of_types, places_are_named, places_differ, records_stand_together, roots_are_keyed,
    roots_rise, types_go_down,
};
