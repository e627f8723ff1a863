// What a GNP finds: it looks at the record of its parent alone.
ghost use Rattle.std.specs.Prelude.{◌≡◌, ◌≤◌, ◌+◌, ◌*◌, find, IfOk, IfSome, IsErrOf, IsTrue, None, Some};
ghost use Rattle.std.specs.Option.{ForSome};
ghost use Rattle.position_state.specs.View.{behind, is_at};
ghost use Rattle.position_state.specs.Looks.{found_at, stands_in};
ghost use Rattle.call_gets.specs.Below.{IsInRecord, IsSmall, ahead_and_around, deeper_around, in_record, rows_around};
ghost use Rattle.call_gets.specs.Scan.{IsGot, LooksOn, LooksWithin, inside_ahead, level_at, met_behind, met_below, path_of, plain_view};

use crate::place::{is_same_place, record_cmp};
use crate::route::path_to;
use crate::scan::{Met, first_from, is_inside};
use call_text::Ssa;
use hal_schema::{Schema, root_order_is_total};
use position_state::{Anchor, Spot, Walk, WalkFault};
use std::alloc::Global;
use std::cmp::Ordering;
use view_laws::{
    places_differ, records_stand_together, roots_are_keyed, roots_rise, types_go_down,
};

/// The first element behind a place and below a parent that meets the SSAs.
pub(crate) fn first_below<W: Walk>(
    alloc: Global,
    walk: &mut W,
    schema: &Schema,
    ssas: &[Ssa],
    at: &Anchor,
    parent: &Anchor,
) -> Result<Option<Met>, WalkFault>
    requires live { IsTrue (W.seen walk.old).live }
    requires schema { (W.seen walk.old).schema ≡ schema.now }
    requires there { IsTrue (stands_in (W.seen walk.old) None at.now) }
    ensures got { IfOk result (IsGot schema.now (W.seen walk.old) (met_below schema.now ssas.now at.now parent.now)) }
    ensures few { IfOk result (λ met. LooksWithin ssas.now (W.seen walk.old) (W.seen walk.new)
        (λ rows. 5 + 2 * rows_around parent.now (plain_view schema.now rows))) }
    ensures looked { LooksOn (IsErrOf result WalkFault.Failed) (W.seen walk.old) (W.seen walk.new) }
{
    places_differ();
    match walk.here(None, parent)? {
        None => Ok(None),
        Some(spot) => below_one(alloc, walk, schema, ssas, at, parent, &spot),
    }
}

/// The same where the parent is this element. Roots are compared first: where the place is in an earlier record, all that is
/// below the parent is still to come, and where it is in a later one, nothing of it.
fn below_one<W: Walk>(
    alloc: Global,
    walk: &mut W,
    schema: &Schema,
    ssas: &[Ssa],
    at: &Anchor,
    parent: &Anchor,
    spot: &Spot,
) -> Result<Option<Met>, WalkFault>
    requires live { IsTrue (W.seen walk.old).live }
    requires schema { (W.seen walk.old).schema ≡ schema.now }
    requires there { IsTrue (stands_in (W.seen walk.old) None at.now) }
    requires found { ForSome (W.seen walk.old).forest (λ rows. found_at parent.now (plain_view schema.now rows) ≡ Some spot.now) }
    ensures got { IfOk result (IsGot schema.now (W.seen walk.old) (met_below schema.now ssas.now at.now parent.now)) }
    ensures few { IfOk result (λ met. LooksWithin ssas.now (W.seen walk.old) (W.seen walk.new)
        (λ rows. 4 + 2 * rows_around parent.now (plain_view schema.now rows))) }
    ensures looked { LooksOn (IsErrOf result WalkFault.Failed) (W.seen walk.old) (W.seen walk.new) }
{
    places_differ();
    roots_are_keyed();
    roots_rise();
    records_stand_together();
    types_go_down();
    root_order_is_total();
    match record_cmp(schema, at, spot) {
        Ordering::Less => first_deeper(alloc, walk, schema, ssas, spot),
        Ordering::Equal => below_here(alloc, walk, schema, ssas, at, parent),
        Ordering::Greater => Ok(None),
    }
}

/// The same where both are of one record. Where the place is the parent or below it, this is what is deeper behind the place;
/// else it is what is deeper behind the parent, if that is still to come.
fn below_here<W: Walk>(
    alloc: Global,
    walk: &mut W,
    schema: &Schema,
    ssas: &[Ssa],
    at: &Anchor,
    parent: &Anchor,
) -> Result<Option<Met>, WalkFault>
    requires live { IsTrue (W.seen walk.old).live }
    requires schema { (W.seen walk.old).schema ≡ schema.now }
    requires there { IsTrue (stands_in (W.seen walk.old) None at.now) }
    requires within { ForSome (W.seen walk.old).forest (λ rows. IsInRecord (plain_view schema.now rows) at.now parent.now) }
    requires small { ForSome (W.seen walk.old).forest (λ rows. IsSmall (plain_view schema.now rows) at.now parent.now) }
    ensures got { IfOk result (IsGot schema.now (W.seen walk.old) (met_below schema.now ssas.now at.now parent.now)) }
    ensures few { IfOk result (λ met. LooksWithin ssas.now (W.seen walk.old) (W.seen walk.new)
        (λ rows. 4 + 2 * rows_around parent.now (plain_view schema.now rows))) }
    ensures looked { LooksOn (IsErrOf result WalkFault.Failed) (W.seen walk.old) (W.seen walk.new) }
{
    places_differ();
    let path = path_to(alloc, walk, at)?;
    match level_at(&path, parent) {
        None => below_later(alloc, walk, schema, ssas, at, parent),
        Some(level) => first_from(walk, schema, ssas, Some(level), path, at),
    }
}

/// The same where the place isn't the other one nor below it.
fn below_later<W: Walk>(
    alloc: Global,
    walk: &mut W,
    schema: &Schema,
    ssas: &[Ssa],
    at: &Anchor,
    parent: &Anchor,
) -> Result<Option<Met>, WalkFault>
    requires live { IsTrue (W.seen walk.old).live }
    requires schema { (W.seen walk.old).schema ≡ schema.now }
    requires there { IsTrue (stands_in (W.seen walk.old) None at.now) }
    requires within { ForSome (W.seen walk.old).forest (λ rows. IsInRecord (plain_view schema.now rows) at.now parent.now) }
    requires apart { ForSome (W.seen walk.old).forest (λ rows. level_at (path_of at.now (plain_view schema.now rows)) parent.now ≡ None) }
    ensures got { IfOk result (IsGot schema.now (W.seen walk.old) (met_below schema.now ssas.now at.now parent.now)) }
    ensures few { IfOk result (λ met. LooksWithin ssas.now (W.seen walk.old) (W.seen walk.new)
        (λ rows. 3 + ahead_and_around at.now parent.now (plain_view schema.now rows))) }
    ensures looked { LooksOn (IsErrOf result WalkFault.Failed) (W.seen walk.old) (W.seen walk.new) }
{
    places_differ();
    match later(walk, at, parent)? {
        None => Ok(None),
        Some(spot) => first_deeper(alloc, walk, schema, ssas, &spot),
    }
}

/// What a scan finds behind an element that goes no further than what is deeper.
fn first_deeper<W: Walk>(
    alloc: Global,
    walk: &mut W,
    schema: &Schema,
    ssas: &[Ssa],
    spot: &Spot,
) -> Result<Option<Met>, WalkFault>
    requires live { IsTrue (W.seen walk.old).live }
    requires schema { (W.seen walk.old).schema ≡ schema.now }
    requires there { IsTrue (stands_in (W.seen walk.old) None spot.now.at) }
    ensures met { IfOk result (IsGot schema.now (W.seen walk.old) (met_behind schema.now ssas.now (Some spot.now.level) spot.now.at)) }
    ensures few { IfOk result (λ met. LooksWithin ssas.now (W.seen walk.old) (W.seen walk.new)
        (λ rows. 2 + deeper_around spot.now (plain_view schema.now rows))) }
    ensures looked { LooksOn (IsErrOf result WalkFault.Failed) (W.seen walk.old) (W.seen walk.new) }
{
    let path = path_to(alloc, walk, &spot.at)?;
    first_from(walk, schema, ssas, Some(spot.level), path, &spot.at)
}

/// The level of the element of a path that is at a place.
fn level_at(path: &[Spot], at: &Anchor) -> Option<u8>
    ensures { result ≡ level_at path.now at.now }
{
    for spot in path {
        if is_same_place(at, &spot.at) {
            return Some(spot.level);
        }
    }
    None
}

/// The element at one place, if it stands behind another in its record.
fn later<W: Walk>(walk: &mut W, at: &Anchor, place: &Anchor) -> Result<Option<Spot>, WalkFault>
    requires live { IsTrue (W.seen walk.old).live }
    requires there { IsTrue (stands_in (W.seen walk.old) None at.now) }
    ensures later { IfOk result (λ spot. IfSome (W.seen walk.old).forest
        (λ rows. spot ≡ find (is_at place.now) (in_record (behind at.now (plain_view (W.seen walk.old).schema rows))))) }
    ensures few { IfOk result (λ spot. IfSome (W.seen walk.old).forest (λ rows.
        (W.seen walk.new).looks ≤ (W.seen walk.old).looks + (1 + inside_ahead (Some 1) (behind at.now (plain_view (W.seen walk.old).schema rows))))) }
    ensures looked { LooksOn (IsErrOf result WalkFault.Failed) (W.seen walk.old) (W.seen walk.new) }
{
    places_differ();
    let mut next = walk.after(None, at)?;
    for _look in 0..u64::MAX {
        let Some(spot) = next else {
            return Ok(None);
        };
        if !is_inside(Some(1), &spot) {
            return Ok(None);
        }
        if is_same_place(place, &spot.at) {
            return Ok(Some(spot));
        }
        next = walk.after(None, &spot.at)?;
    }
    Err(WalkFault::Memory)
}
