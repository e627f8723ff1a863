// Whether two places are one, and which record is before.
ghost use Rattle.std.specs.Prelude.{◌≡◌};
ghost use Rattle.hal_schema.specs.Row.{same_name};
ghost use Rattle.position_state.specs.View.{root_named, same_entry, same_place};
ghost use Rattle.call_gets.specs.Below.{record_cmp};

use hal_base::{Ilk, Key};
use hal_schema::{Schema, root_cmp};
use position_state::{Anchor, Spot};
use std::cmp::Ordering;

pub(crate) fn is_same_place(a: &Anchor, b: &Anchor) -> bool
    ensures { result ≡ same_place a.now b.now }
{
    match a {
        Anchor::Front => match b {
            Anchor::Front => true,
            Anchor::At { .. } => false,
        },
        Anchor::At { name, entry, .. } => match b {
            Anchor::Front => false,
            Anchor::At {
                name: other,
                entry: more,
                ..
            } => is_same_name(name, other) && is_same_entry(entry, more),
        },
    }
}

fn is_same_name(a: &Ilk, b: &Ilk) -> bool
    ensures { result ≡ same_name a.now b.now }
{
    a.addr == b.addr && a.part == b.part && a.number == b.number
}

fn is_same_entry(a: &Option<Key>, b: &Option<Key>) -> bool
    ensures { result ≡ same_entry a.now b.now }
{
    match (a, b) {
        (None, None) => true,
        (Some(a), Some(b)) => a == b,
        _ => false,
    }
}

/// How the record of a place stands to that of an element, in the root order; the front is before each.
pub(crate) fn record_cmp(schema: &Schema, at: &Anchor, spot: &Spot) -> Ordering
    ensures { result ≡ record_cmp schema.now at.now spot.now }
{
    match at {
        Anchor::Front => Ordering::Less,
        Anchor::At { root, .. } => root_cmp(schema, root.as_slice(), root_named(&spot.at)),
    }
}

fn root_named(at: &Anchor) -> &[u8]
    ensures { result.now ≡ root_named at.now }
{
    match at {
        Anchor::Front => b"",
        Anchor::At { root, .. } => root.as_slice(),
    }
}
