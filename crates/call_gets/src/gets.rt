// What a get finds in the view of its session.
ghost use Rattle.std.specs.Prelude.{◌≡◌, is_some, ◌≤◌, ◌+◌, ◌==◌, ◌∷◌, [], length, true, find, IfOk, IfSome, IsErrOf, IsTrue, None, Some};
ghost use Rattle.position_state.specs.View.{behind, is_at};
ghost use Rattle.std.specs.Option.{ForSome, option_map};
ghost use Rattle.position_state.specs.declared.session.Anchor.TheVariants.{Front};
ghost use Rattle.position_state.specs.Lawful.{Stands};
ghost use Rattle.position_state.specs.Looks.{first_behind, root_of_key, stands_in};
ghost use Rattle.dli_calls.specs.Gets.{paths_behind};
ghost use Rattle.dli_calls.specs.Meets.{meets, on_paths};
ghost use Rattle.call_gets.specs.Below.{IsWithinParent};
ghost use Rattle.call_gets.specs.Scan.{IsGot, IsPath, IsShown, LooksOn, LooksWithin, from_on, inside_ahead, level_at, met_behind, met_below, met_from, on_its_path, path_of, plain_view};
ghost use Rattle.call_gets.specs.Shown.{IsGiven, IsGotBy, is_of_any};
ghost use Rattle.call_gets.specs.Keyed.{IsWithinRecord, keyed_by, keyed_path, met_in_record, rows_under};
ghost use Rattle.call_gets.specs.Passed.{IsWithinPassed, LooksClimbing};

use crate::below::first_below;
use crate::functions::{is_next, is_unique};
use crate::keyed::{keyed_by, keyed_path};
use crate::route::path_to;
use crate::scan::{Met, first_met, first_on_way, join};
use call_text::{Call, Ssa};
use hal_base::Bytes;
use hal_schema::Schema;
use position_state::{Anchor, Session, Spot, Walk, WalkFault};
use std::alloc::Global;
use view_laws::{
    places_differ, records_stand_together, roots_are_keyed, roots_rise, types_go_down,
};

/// The element that a get finds, with its path: GU looks at the whole view, GN behind the position, and GNP at what of
/// that is below the parent.
pub(crate) fn got<W: Walk>(
    alloc: Global,
    schema: &Schema,
    session: &Session,
    call: &Call,
    walk: &mut W,
) -> Result<Option<Met>, WalkFault>
    requires live { IsTrue (W.seen walk.old).live }
    requires plain { session.now.index ≡ None }
    requires schema { (W.seen walk.old).schema ≡ schema.now }
    requires stands { ForSome (W.seen walk.old).forest (λ rows. Stands schema.now rows session.now) }
    ensures got { IfOk result (IsGotBy schema.now (W.seen walk.old) session.now call.now) }
    ensures few { is_of_any call.now ≡ true → (W.seen walk.new).looks ≤ (W.seen walk.old).looks + 1 }
    ensures keyed { is_some (keyed_by schema.now call.now) ≡ true → (W.seen walk.new).looks ≤ (W.seen walk.old).looks + 1 }
    ensures within { IsWithinRecord schema.now call.now (W.seen walk.old) (W.seen walk.new) }
    ensures below { IfOk result (λ met. IsWithinParent 5 schema.now session.now call.now (W.seen walk.old) (W.seen walk.new)) }
    ensures passing { IfOk result (λ met. IsWithinPassed 3 schema.now session.now call.now (W.seen walk.old) (W.seen walk.new)) }
    ensures looked { LooksOn (IsErrOf result WalkFault.Failed) (W.seen walk.old) (W.seen walk.new) }
{
    if is_unique(call) {
        return first_of_all(alloc, walk, schema, call);
    }
    let ssas = call.ssas.as_slice();
    if is_next(call) {
        return first_behind(alloc, walk, schema, ssas, &session.anchor);
    }
    match &session.parent {
        None => Ok(None),
        Some(parent) => first_below(alloc, walk, schema, ssas, &session.anchor, parent),
    }
}

/// The first element of the view that meets a call's SSAs: by the root's key, where no more is asked.
fn first_of_all<W: Walk>(
    alloc: Global,
    walk: &mut W,
    schema: &Schema,
    call: &Call,
) -> Result<Option<Met>, WalkFault>
    requires live { IsTrue (W.seen walk.old).live }
    requires schema { (W.seen walk.old).schema ≡ schema.now }
    ensures got { IfOk result (IsGiven schema.now call.now.ssas (W.seen walk.old) (λ view. find (meets schema.now None view call.now.ssas) (on_paths view))) }
    ensures few { length call.now.ssas == 0 ≡ true → (W.seen walk.new).looks ≤ (W.seen walk.old).looks + 1 }
    ensures keyed { is_some (keyed_by schema.now call.now) ≡ true → (W.seen walk.new).looks ≤ (W.seen walk.old).looks + 1 }
    ensures within { IsWithinRecord schema.now call.now (W.seen walk.old) (W.seen walk.new) }
    ensures passing { IfOk result
        (λ met. keyed_path schema.now call.now ≡ None → LooksClimbing 3 schema.now call.now.ssas Front (W.seen walk.old) (W.seen walk.new)) }
    ensures looked { LooksOn (IsErrOf result WalkFault.Failed) (W.seen walk.old) (W.seen walk.new) }
{
    places_differ();
    roots_are_keyed();
    roots_rise();
    let ssas = call.ssas.as_slice();
    if let Some(key) = keyed_by(schema, call)? {
        return root_with(alloc, walk, &key);
    }
    match keyed_path(schema, call)? {
        None => first_behind(alloc, walk, schema, ssas, &Anchor::Front),
        Some(key) => first_in_record(alloc, walk, schema, ssas, &key),
    }
}

/// The root with a key.
pub(crate) fn root_with<W: Walk>(
    alloc: Global,
    walk: &mut W,
    key: &Bytes,
) -> Result<Option<Met>, WalkFault>
    requires live { IsTrue (W.seen walk.old).live }
    ensures met { IfOk result (λ met. IfSome (W.seen walk.old).forest (λ rows.
        option_map on_its_path met ≡ option_map (λ spot. (spot ∷ [], spot)) (root_of_key key.now (plain_view (W.seen walk.old).schema rows)))) }
    ensures few { (W.seen walk.new).looks ≤ (W.seen walk.old).looks + 1 }
    ensures looked { LooksOn (IsErrOf result WalkFault.Failed) (W.seen walk.old) (W.seen walk.new) }
{
    match walk.at_root(key.as_slice())? {
        None => Ok(None),
        Some(spot) => Ok(Some(alone(alloc, spot))),
    }
}

/// The first element below the root with a key that meets the SSAs. Nothing of other records is looked at.
pub(crate) fn first_in_record<W: Walk>(
    alloc: Global,
    walk: &mut W,
    schema: &Schema,
    ssas: &[Ssa],
    key: &Bytes,
) -> Result<Option<Met>, WalkFault>
    requires live { IsTrue (W.seen walk.old).live }
    requires schema { (W.seen walk.old).schema ≡ schema.now }
    ensures met { IfOk result (IsGot schema.now (W.seen walk.old) (met_in_record schema.now ssas.now key.now)) }
    ensures within { LooksWithin ssas.now (W.seen walk.old) (W.seen walk.new) (λ rows. 2 + rows_under key.now (plain_view schema.now rows)) }
    ensures looked { LooksOn (IsErrOf result WalkFault.Failed) (W.seen walk.old) (W.seen walk.new) }
{
    places_differ();
    roots_are_keyed();
    records_stand_together();
    match walk.at_root(key.as_slice())? {
        None => Ok(None),
        Some(root) => first_below_root(alloc, walk, schema, ssas, root),
    }
}

/// The first element below a root that meets the SSAs.
fn first_below_root<W: Walk>(
    alloc: Global,
    walk: &mut W,
    schema: &Schema,
    ssas: &[Ssa],
    root: Spot,
) -> Result<Option<Met>, WalkFault>
    requires live { IsTrue (W.seen walk.old).live }
    requires schema { (W.seen walk.old).schema ≡ schema.now }
    requires shown { IsShown schema.now (W.seen walk.old) root }
    requires top { ForSome (W.seen walk.old).forest (λ rows. root.level ≡ 1) }
    ensures met { IfOk result (IsGot schema.now (W.seen walk.old)
        (λ view. met_from schema.now view ssas.now (Some 1) (root ∷ []) (first_behind root.at view))) }
    ensures few { LooksWithin ssas.now (W.seen walk.old) (W.seen walk.new)
        (λ rows. let view = plain_view schema.now rows in 1 + inside_ahead (Some 1) (from_on view (first_behind root.at view))) }
    ensures looked { LooksOn (IsErrOf result WalkFault.Failed) (W.seen walk.old) (W.seen walk.new) }
{
    places_differ();
    roots_are_keyed();
    types_go_down();
    let next = walk.after(None, &root.at)?;
    let mut path = Vec::new(alloc);
    join(&mut path, root)?;
    first_met(walk, schema, ssas, Some(1), path, next)
}

/// The first element behind a place that meets the SSAs.
pub(crate) fn first_behind<W: Walk>(
    alloc: Global,
    walk: &mut W,
    schema: &Schema,
    ssas: &[Ssa],
    at: &Anchor,
) -> Result<Option<Met>, WalkFault>
    requires live { IsTrue (W.seen walk.old).live }
    requires schema { (W.seen walk.old).schema ≡ schema.now }
    requires there { IsTrue (stands_in (W.seen walk.old) None at.now) }
    ensures got { IfOk result (IsGiven schema.now ssas.now (W.seen walk.old)
        (λ view. find (meets schema.now None view ssas.now) (paths_behind at.now (on_paths view)))) }
    ensures few { length ssas.now == 0 ≡ true → (W.seen walk.new).looks ≤ (W.seen walk.old).looks + 1 }
    ensures passing { IfOk result (λ met. LooksClimbing 3 schema.now ssas.now at.now (W.seen walk.old) (W.seen walk.new)) }
    ensures looked { LooksOn (IsErrOf result WalkFault.Failed) (W.seen walk.old) (W.seen walk.new) }
{
    places_differ();
    if has_none(ssas) {
        return first_of_any(alloc, walk, at);
    }
    let path = path_to(alloc, walk, at)?;
    first_on_way(walk, schema, ssas, path, at)
}

/// The first element behind a place. Without an SSA nothing of the path to it is asked, so it isn't climbed.
fn first_of_any<W: Walk>(alloc: Global, walk: &mut W, at: &Anchor) -> Result<Option<Met>, WalkFault>
    requires live { IsTrue (W.seen walk.old).live }
    requires there { IsTrue (stands_in (W.seen walk.old) None at.now) }
    ensures met { IfOk result (λ met. IfSome (W.seen walk.old).forest (λ rows.
        option_map on_its_path met ≡ option_map (λ spot. (spot ∷ [], spot)) (first_behind at.now (plain_view (W.seen walk.old).schema rows)))) }
    ensures few { (W.seen walk.new).looks ≤ (W.seen walk.old).looks + 1 }
    ensures looked { LooksOn (IsErrOf result WalkFault.Failed) (W.seen walk.old) (W.seen walk.new) }
{
    match walk.after(None, at)? {
        None => Ok(None),
        Some(spot) => Ok(Some(alone(alloc, spot))),
    }
}

fn has_none(ssas: &[Ssa]) -> bool
    ensures { result ≡ (length ssas.now == 0) }
{
    ssas.len() == 0
}

fn alone(alloc: Global, spot: Spot) -> Met
    ensures { on_its_path result ≡ (spot ∷ [], spot) }
{
    let above = Vec::new(alloc);
    Met { above, spot }
}
