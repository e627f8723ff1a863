// Elements of a view in memory, found as looks want them.
ghost use Rattle.std.specs.Prelude.{◌≡◌, nat_le, nat_lt, filter, find, IfOk};
ghost use Rattle.std.specs.List.{last_or, after_first};
ghost use Rattle.std.specs.Option.{option_copied};
ghost use Rattle.hal_schema.specs.Row.{same_name};
ghost use Rattle.position_state.specs.View.{same_entry, same_place, is_at, all_before, before, behind};
ghost use Rattle.position_state.specs.Looks.{above, found_at, past, of_entry};

use crate::{Anchor, Spot};
use hal_base::{Ilk, Key, Memory};

pub(crate) fn is_same_name(a: &Ilk, b: &Ilk) -> bool
    ensures { result ≡ same_name a.now b.now }
{
    a.addr == b.addr && a.part == b.part && a.number == b.number
}

fn is_same_entry(a: &Option<Key>, b: &Option<Key>) -> bool
    ensures { result ≡ same_entry a.now b.now }
{
    match (a, b) {
        (None, None) => true,
        (Some(a), Some(b)) => a == b,
        _ => false,
    }
}

fn is_same_place(a: &Anchor, b: &Anchor) -> bool
    ensures { result ≡ same_place a.now b.now }
{
    match a {
        Anchor::Front => match b {
            Anchor::Front => true,
            Anchor::At { .. } => false,
        },
        Anchor::At { name, entry, .. } => match b {
            Anchor::Front => false,
            Anchor::At {
                name: other,
                entry: more,
                ..
            } => is_same_name(name, other) && is_same_entry(entry, more),
        },
    }
}

/// The element at a place; none at the front.
pub(crate) fn found_at<'a>(view: &'a [Spot], at: &Anchor) -> Option<&'a Spot>
    ensures { option_copied result ≡ found_at at.now view.now }
{
    match at {
        Anchor::Front => None,
        Anchor::At { .. } => found_first(view, at),
    }
}

fn found_first<'a>(view: &'a [Spot], at: &Anchor) -> Option<&'a Spot>
    ensures { option_copied result ≡ find (is_at at.now) view.now }
{
    for spot in view {
        if is_same_place(at, &spot.at) {
            return Some(spot);
        }
    }
    None
}

/// The elements behind a place.
pub(crate) fn behind<'a>(view: &'a [Spot], at: &Anchor) -> &'a [Spot]
    ensures { result.now ≡ behind at.now view.now }
{
    match at {
        Anchor::Front => view,
        Anchor::At { .. } => behind_first(view, at),
    }
}

fn behind_first<'a>(view: &'a [Spot], at: &Anchor) -> &'a [Spot]
    ensures { result.now ≡ after_first (is_at at.now) view.now }
{
    for (place, spot) in view.iter().enumerate() {
        if is_same_place(at, &spot.at) {
            return &view[place + 1..];
        }
    }
    &[]
}

/// The elements before a place.
pub(crate) fn before<'a>(view: &'a [Spot], at: &Anchor) -> &'a [Spot]
    ensures { result.now ≡ before at.now view.now }
{
    match at {
        Anchor::Front => &[],
        Anchor::At { .. } => before_first(view, at),
    }
}

fn before_first<'a>(view: &'a [Spot], at: &Anchor) -> &'a [Spot]
    ensures { result.now ≡ all_before at.now view.now }
{
    for (place, spot) in view.iter().enumerate() {
        if is_same_place(at, &spot.at) {
            return &view[..place];
        }
    }
    view
}

pub(crate) fn last(view: &[Spot]) -> Option<&Spot>
    ensures { option_copied result ≡ last_or None view.now }
{
    let mut last = None;
    for spot in view {
        last = Some(spot);
    }
    last
}

/// The element of the parent.
pub(crate) fn above<'a>(view: &'a [Spot], spot: &Spot) -> Option<&'a Spot>
    ensures { option_copied result ≡ above spot.now view.now }
{
    last_above(before(view, &spot.at), spot.level)
}

/// The last element of a higher level.
fn last_above(view: &[Spot], level: u8) -> Option<&Spot>
    ensures { option_copied result ≡ last_or None (filter (λ spot. nat_lt spot.level level) view.now) }
{
    let mut last = None;
    for spot in view {
        if spot.level < level {
            last = Some(spot);
        }
    }
    last
}

/// The first element behind this one that isn't deeper.
pub(crate) fn past<'a>(view: &'a [Spot], spot: &Spot) -> Option<&'a Spot>
    ensures { option_copied result ≡ past spot.now view.now }
{
    first_up_to(behind(view, &spot.at), spot.level)
}

fn first_up_to(view: &[Spot], level: u8) -> Option<&Spot>
    ensures { option_copied result ≡ find (λ spot. nat_le spot.level level) view.now }
{
    for spot in view {
        if spot.level <= level {
            return Some(spot);
        }
    }
    None
}

/// The first element whose key is these search fields.
pub(crate) fn first_of_key<'a>(view: &'a [Spot], key: &[u8]) -> Option<&'a Spot>
    ensures { option_copied result ≡ of_entry key.now view.now }
{
    for spot in view {
        if spot.key.as_slice() == key {
            return Some(spot);
        }
    }
    None
}

pub(crate) fn copied(spot: Option<&Spot>) -> Result<Option<Spot>, Memory>
    ensures { IfOk result (λ copy. copy ≡ option_copied spot.entry) }
{
    match spot {
        None => Ok(None),
        Some(spot) => Ok(Some(spot.copy()?)),
    }
}
