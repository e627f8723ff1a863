//! Tests of sets of rows by key over a shelf in memory.
//!
//! - `kept.rt`: a set that stays open from call to call;
//! - `puts.rt`: rows put in and taken away;
//! - `sets.rt`: pages that a test lays out;
//! - `splits.rt`: rows put in where memory may be wanted, the set opened anew afterwards;
//! - `tables.rt`: a set kept open, beside std's map.
#![tactic(auto)]

ghost use Rattle.std.specs.Prelude.{◌≡◌, ◌+◌, ◌/◌, ◌%◌, ◌∷◌, []};

/// The key of a number: its three digits.
pub fn key_of(number: u8) -> [u8; 3]
    ensures { result ≡ (48 + number / 100) ∷ (48 + number / 10 % 10) ∷ (48 + number % 10) ∷ [] }
{
    [
        b'0' + number / 100,
        b'0' + number / 10 % 10,
        b'0' + number % 10,
    ]
}

mod kept;

pub use kept::OpenSet;

#[cfg(test)]
mod puts;
#[cfg(test)]
mod sets;
#[cfg(test)]
mod splits;
#[cfg(test)]
mod tables;
