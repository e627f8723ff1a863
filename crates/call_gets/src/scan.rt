// The first element of a view that meets a list of SSAs, found by looks.
ghost use Rattle.std.specs.Prelude.{◌≡◌, ◌≤◌, ◌+◌, ◌∷◌, ◌++◌, [], filter, find, nat_lt, not, true, false, IfOk, IfSome, OnOk, IsErrOf, IsTrue, None, Some};
ghost use Rattle.std.specs.List.{list_any};
ghost use Rattle.std.specs.Option.{ForSome, option_copied};
ghost use Rattle.dli_calls.specs.Ssas.{asks_last};
ghost use Rattle.position_state.specs.View.{behind};
ghost use Rattle.position_state.specs.Looks.{stands_in};
ghost use Rattle.call_gets.specs.Passed.{IsCloser, LooksBehind, LooksPassing, all_lead, leads};
ghost use Rattle.call_gets.specs.Scan.{AllGoDown, AreShown, IsFirstMet, IsGot, IsNearer, IsPath, LooksOn, LooksWithin, Steps, from_on, inside_ahead, is_inside, met_behind, plain_view};

use crate::judged::{Verdict, judge, leads};
use call_text::Ssa;
use hal_base::Memory;
use hal_schema::{Schema, schemas_are_kept};
use position_state::{Anchor, Spot, Walk, WalkFault};
use view_laws::{places_differ, types_go_down};

/// An element that meets a call's SSAs, and those above it on its path, the root first.
#[derive(Debug, Drop)]
pub(crate) struct Met {
    pub(crate) above: Vec<Spot>,
    pub(crate) spot: Spot,
}

/// What a scan does at an element: it ends with it, or goes on at another, if there is one.
enum Step {
    Ends(Spot),
    GoesOn(Option<Spot>),
}

/// The first element that meets the SSAs, from this one on, which stands behind an element of this path. Where a level is
/// given, the scan goes no further than what is deeper. It passes over all that is below an element that fails, or
/// whose type doesn't lead to the last SSA's, so it keeps one path in memory and looks at nothing that can't meet.
pub(crate) fn first_met<W: Walk>(
    walk: &mut W,
    schema: &Schema,
    ssas: &[Ssa],
    top: Option<u8>,
    path: Vec<Spot>,
    first: Option<Spot>,
) -> Result<Option<Met>, WalkFault>
    requires live { IsTrue (W.seen walk.old).live }
    requires schema { (W.seen walk.old).schema ≡ schema.now }
    requires shown { AreShown schema.now (W.seen walk.old) path.items first }
    requires down { ForSome (W.seen walk.old).forest (λ rows. AllGoDown schema.now (plain_view schema.now rows) path.items first) }
    ensures met { IfOk result (IsFirstMet schema.now (W.seen walk.old) ssas.now top path.items first) }
    ensures few { LooksWithin ssas.now (W.seen walk.old) (W.seen walk.new) (λ rows. inside_ahead top (from_on (plain_view schema.now rows) first)) }
    ensures passing { LooksPassing schema.now ssas.now path.items first (W.seen walk.old) (W.seen walk.new) }
    ensures looked { LooksOn (IsErrOf result WalkFault.Failed) (W.seen walk.old) (W.seen walk.new) }
{
    let mut path = path;
    let mut next = first;
    for _step in 0..u64::MAX {
        let Some(spot) = next else {
            return Ok(None);
        };
        if !is_inside(top, &spot) {
            return Ok(None);
        }
        match move_on(walk, schema, ssas, top, &mut path, spot)? {
            Step::Ends(spot) => return Ok(Some(Met { above: path, spot })),
            Step::GoesOn(other) => next = other,
        }
    }
    Err(WalkFault::Memory)
}

/// What a scan finds behind a place to which this is the path.
pub(crate) fn first_from<W: Walk>(
    walk: &mut W,
    schema: &Schema,
    ssas: &[Ssa],
    top: Option<u8>,
    path: Vec<Spot>,
    at: &Anchor,
) -> Result<Option<Met>, WalkFault>
    requires live { IsTrue (W.seen walk.old).live }
    requires schema { (W.seen walk.old).schema ≡ schema.now }
    requires there { IsTrue (stands_in (W.seen walk.old) None at.now) }
    requires path { ForSome (W.seen walk.old).forest (λ rows. IsPath (plain_view schema.now rows) at.now path.items) }
    ensures met { IfOk result (IsGot schema.now (W.seen walk.old) (met_behind schema.now ssas.now top at.now)) }
    ensures few { IfOk result (λ met. LooksWithin ssas.now (W.seen walk.old) (W.seen walk.new)
        (λ rows. 1 + inside_ahead top (behind at.now (plain_view schema.now rows)))) }
    ensures passing { IfOk result
        (λ met. all_lead schema.now ssas.now path.items ≡ true → LooksBehind schema.now ssas.now at.now (W.seen walk.old) (W.seen walk.new)) }
    ensures looked { LooksOn (IsErrOf result WalkFault.Failed) (W.seen walk.old) (W.seen walk.new) }
{
    places_differ();
    types_go_down();
    let first = walk.after(None, at)?;
    first_met(walk, schema, ssas, top, path, first)
}

/// What a scan finds behind a place to which this is the path. All that is below the first element on it that doesn't lead to
/// the last SSA's type is passed over.
pub(crate) fn first_on_way<W: Walk>(
    walk: &mut W,
    schema: &Schema,
    ssas: &[Ssa],
    path: Vec<Spot>,
    at: &Anchor,
) -> Result<Option<Met>, WalkFault>
    requires live { IsTrue (W.seen walk.old).live }
    requires schema { (W.seen walk.old).schema ≡ schema.now }
    requires there { IsTrue (stands_in (W.seen walk.old) None at.now) }
    requires path { ForSome (W.seen walk.old).forest (λ rows. IsPath (plain_view schema.now rows) at.now path.items) }
    ensures met { IfOk result (IsGot schema.now (W.seen walk.old) (met_behind schema.now ssas.now None at.now)) }
    ensures passing { IfOk result (λ met. LooksBehind schema.now ssas.now at.now (W.seen walk.old) (W.seen walk.new)) }
    ensures looked { LooksOn (IsErrOf result WalkFault.Failed) (W.seen walk.old) (W.seen walk.new) }
{
    places_differ();
    types_go_down();
    schemas_are_kept();
    let mut path = path;
    let Some(spot) = off_way(schema, ssas, &path) else {
        return first_from(walk, schema, ssas, None, path, at);
    };
    let next = walk.past(None, spot)?;
    let level = spot.level;
    leave(&mut path, level);
    first_met(walk, schema, ssas, None, path, next)
}

/// The first element of a path below which none of the last SSA's type stands.
fn off_way<'a>(schema: &Schema, ssas: &[Ssa], path: &'a [Spot]) -> Option<&'a Spot>
    ensures { option_copied result ≡ find (λ spot. not (leads schema.now ssas.now spot.code)) path.now }
{
    path.iter().find(|spot| !leads(schema, ssas, spot.code))
}

pub(crate) fn is_inside(top: Option<u8>, spot: &Spot) -> bool
    ensures { result ≡ is_inside top spot.now }
{
    match top {
        None => true,
        Some(level) => level < spot.level,
    }
}

/// One step of a scan, which carries the path along.
fn move_on<W: Walk>(
    walk: &mut W,
    schema: &Schema,
    ssas: &[Ssa],
    top: Option<u8>,
    path: &mut Vec<Spot>,
    spot: Spot,
) -> Result<Step, WalkFault>
    requires live { IsTrue (W.seen walk.old).live }
    requires schema { (W.seen walk.old).schema ≡ schema.now }
    requires shown { AreShown schema.now (W.seen walk.old) path.old.items (Some spot) }
    requires down { ForSome (W.seen walk.old).forest (λ rows. AllGoDown schema.now (plain_view schema.now rows) path.old.items (Some spot)) }
    requires inside { is_inside top spot ≡ true }
    ensures step { IfOk result (Steps schema.now (W.seen walk.old) ssas.now top path.old.items spot path.new.items) }
    ensures closer { IfOk result (λ step. IfSome (W.seen walk.old).forest
        (λ rows. IsCloser schema.now (plain_view schema.now rows) ssas.now path.old.items spot path.new.items step)) }
    ensures nearer { IfOk result (λ step. IfSome (W.seen walk.old).forest (λ rows. IsNearer top (plain_view schema.now rows) spot step)) }
    ensures few { list_any asks_last ssas.now ≡ false → (W.seen walk.new).looks ≤ (W.seen walk.old).looks + 1 }
    ensures looked { LooksOn (IsErrOf result WalkFault.Failed) (W.seen walk.old) (W.seen walk.new) }
{
    places_differ();
    schemas_are_kept();
    leave(path, spot.level);
    match judge(walk, schema, ssas, path, &spot)? {
        Verdict::Meets => Ok(Step::Ends(spot)),
        Verdict::Closed => Ok(Step::GoesOn(walk.past(None, &spot)?)),
        Verdict::Open => {
            let next = walk.after(None, &spot.at)?;
            join(path, spot)?;
            Ok(Step::GoesOn(next))
        }
    }
}

/// Keeps what of a path is above a level.
fn leave(path: &mut Vec<Spot>, level: u8)
    ensures { path.new.items ≡ filter (λ above. nat_lt above.level level) path.old.items }
{
    path.retain(|above| above.level < level);
}

/// Puts an element behind a path.
pub(crate) fn join(path: &mut Vec<Spot>, spot: Spot) -> Result<(), Memory>
    ensures { OnOk result (path.new.items ≡ path.old.items ++ spot ∷ []) }
{
    path.push(spot)?;
    Ok(())
}
