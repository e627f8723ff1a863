// Whether an element meets a list of SSAs, and whether what is below it may.
ghost use Rattle.std.specs.Prelude.{◌≡◌, ◌≤◌, ◌↔◌, ◌==◌, ◌&&◌, if◌then◌else◌, false, is_some, Some, ◌∷◌, ◌++◌, [], find, true, None, IfOk, IfSome, IsErrOf, IsTrue, All};
ghost use Rattle.std.specs.List.{list_any, last_or};
ghost use Rattle.std.specs.Option.{ForSome, option_copied, option_map_or};
ghost use Rattle.call_gets.specs.declared.judged.Verdict.TheVariants.{Closed, Meets, Open};
ghost use Rattle.dli_calls.specs.Meets.{clauses_hold, is_of, later_twins};
ghost use Rattle.dli_calls.specs.Ssas.{asks_last, clause_holds, code_named};
ghost use Rattle.dli_calls.specs.Refusals.{is_below_type, is_in_subtree};
ghost use Rattle.call_gets.specs.Passed.{leads};
ghost use Rattle.call_gets.specs.Scan.{AreShown, Holds, IsOn, IsShown, IsVerdict, LooksOn, may_lead, of_ssa, plain_view};

use crate::clauses::clauses_hold;
use crate::form::{asks_last, last_of};
use crate::names::code_named;
use crate::path::{is_below_type, is_in_subtree};
use call_text::Ssa;
use hal_base::Memory;
use hal_schema::{Schema, schemas_are_kept};
use position_state::{Spot, Walk, WalkFault};
use view_laws::{levels_are_of_types, places_differ};

/// What the SSAs say of an element: it meets them; or what is below it may; or neither it nor anything below it does.
#[derive(Clone, Copy, Debug, PartialEq, Eq)]
pub(crate) enum Verdict {
    Meets,
    Open,
    Closed,
}

/// Judges an element whose path leads over these elements.
pub(crate) fn judge<W: Walk>(
    walk: &mut W,
    schema: &Schema,
    ssas: &[Ssa],
    above: &[Spot],
    spot: &Spot,
) -> Result<Verdict, WalkFault>
    requires live { IsTrue (W.seen walk.old).live }
    requires schema { (W.seen walk.old).schema ≡ schema.now }
    requires shown { AreShown schema.now (W.seen walk.old) (above.now ++ spot.now ∷ []) None }
    ensures verdict { IfOk result (λ verdict. IfSome (W.seen walk.old).forest
        (λ rows. IsVerdict schema.now (plain_view schema.now rows) ssas.now (above.now ++ spot.now ∷ []) spot.now verdict)) }
    ensures leads { IfOk result (λ verdict. verdict ≡ Open → leads schema.now ssas.now spot.now.code ≡ true) }
    ensures few { list_any asks_last ssas.now ≡ false → (W.seen walk.new).looks ≤ (W.seen walk.old).looks }
    ensures looked { LooksOn (IsErrOf result WalkFault.Failed) (W.seen walk.old) (W.seen walk.new) }
{
    schemas_are_kept();
    if !may_lead(schema, ssas, spot.code) {
        return Ok(Verdict::Closed);
    }
    let mut all = true;
    for ssa in ssas {
        let on = holds_on(walk, schema, ssa, above, spot)?;
        if is_against(on) {
            return Ok(Verdict::Closed);
        }
        all = is_still(all, on);
    }
    if is_last(schema, ssas, spot) {
        return Ok(at_last(all));
    }
    Ok(Verdict::Open)
}

/// Whether the last SSA's type is that of a code, or below it.
fn may_lead(schema: &Schema, ssas: &[Ssa], code: u8) -> bool
    ensures { result ≡ may_lead schema.now ssas.now code }
{
    match last_of(ssas) {
        None => true,
        Some(ssa) => leads_to(schema, code, ssa),
    }
}

/// Whether elements of the last SSA's type may stand below one of this type.
pub(crate) fn leads(schema: &Schema, ssas: &[Ssa], code: u8) -> bool
    ensures { result ≡ leads schema.now ssas.now code }
{
    match last_of(ssas) {
        None => true,
        Some(ssa) => leads_below(schema, code, ssa),
    }
}

fn leads_below(schema: &Schema, code: u8, ssa: &Ssa) -> bool
    ensures { result ≡ option_map_or (is_below_type schema.now code) (code_named schema.now ssa.now.seg) false }
{
    match code_named(schema, ssa.seg) {
        None => false,
        Some(last) => is_below_type(schema, code, last),
    }
}

fn leads_to(schema: &Schema, code: u8, ssa: &Ssa) -> bool
    ensures { result ≡ option_map_or (is_in_subtree schema.now code) (code_named schema.now ssa.now.seg) false }
{
    match code_named(schema, ssa.seg) {
        None => false,
        Some(last) => is_in_subtree(schema, code, last),
    }
}

fn is_against(on: Option<bool>) -> bool
    ensures { IsTrue result ↔ (on ≡ Some false) }
{
    match on {
        None => false,
        Some(holds) => !holds,
    }
}

fn is_still(all: bool, on: Option<bool>) -> bool
    ensures { result ≡ (all && is_some on) }
{
    all && on.is_some()
}

/// The verdict on an element of the last SSA's type, below which there is none.
fn at_last(all: bool) -> Verdict
    ensures { result ≡ (if all then Meets else Closed) }
{
    if all { Verdict::Meets } else { Verdict::Closed }
}

/// Whether an SSA holds for the element of its type on a path; none where the path has no such element.
fn holds_on<W: Walk>(
    walk: &mut W,
    schema: &Schema,
    ssa: &Ssa,
    above: &[Spot],
    spot: &Spot,
) -> Result<Option<bool>, WalkFault>
    requires live { IsTrue (W.seen walk.old).live }
    requires schema { (W.seen walk.old).schema ≡ schema.now }
    requires shown { AreShown schema.now (W.seen walk.old) (above.now ++ spot.now ∷ []) None }
    ensures on { IfOk result (λ on. IfSome (W.seen walk.old).forest
        (λ rows. IsOn schema.now (plain_view schema.now rows) (above.now ++ spot.now ∷ []) ssa.now on)) }
    ensures few { asks_last ssa.now ≡ false → (W.seen walk.new).looks ≤ (W.seen walk.old).looks }
    ensures looked { LooksOn (IsErrOf result WalkFault.Failed) (W.seen walk.old) (W.seen walk.new) }
{
    match of_ssa(schema, ssa, above, spot) {
        None => Ok(None),
        Some(one) => Ok(Some(ssa_holds(walk, schema, ssa, one)?)),
    }
}

/// The element of an SSA's type on a path.
fn of_ssa<'a>(schema: &Schema, ssa: &Ssa, above: &'a [Spot], spot: &'a Spot) -> Option<&'a Spot>
    ensures { option_copied result ≡ of_ssa schema.now ssa.now (above.now ++ spot.now ∷ []) }
{
    of_code(code_named(schema, ssa.seg)?, above, spot)
}

fn of_code<'a>(code: u8, above: &'a [Spot], spot: &'a Spot) -> Option<&'a Spot>
    ensures { option_copied result ≡ find (λ s. s.code == code) (above.now ++ spot.now ∷ []) }
{
    for one in above {
        if one.code == code {
            return Some(one);
        }
    }
    if spot.code == code { Some(spot) } else { None }
}

pub(crate) fn is_of(schema: &Schema, spot: &Spot, ssa: &Ssa) -> bool
    ensures { result ≡ is_of schema.now spot.now ssa.now }
{
    match code_named(schema, ssa.seg) {
        None => false,
        Some(code) => code == spot.code,
    }
}

/// Whether the element is of the last SSA's type; where there is no SSA any element is.
fn is_last(schema: &Schema, ssas: &[Ssa], spot: &Spot) -> bool
    ensures { result ≡ option_map_or (is_of schema.now spot.now) (last_or None ssas.now) true }
{
    match last_of(ssas) {
        None => true,
        Some(ssa) => is_of(schema, spot, ssa),
    }
}

/// Whether an SSA holds for an element of its type.
fn ssa_holds<W: Walk>(
    walk: &mut W,
    schema: &Schema,
    ssa: &Ssa,
    spot: &Spot,
) -> Result<bool, WalkFault>
    requires live { IsTrue (W.seen walk.old).live }
    requires schema { (W.seen walk.old).schema ≡ schema.now }
    requires shown { IsShown schema.now (W.seen walk.old) spot.now }
    ensures holds { IfOk result (Holds schema.now (W.seen walk.old) ssa.now spot.now) }
    ensures few { asks_last ssa.now ≡ false → (W.seen walk.new).looks ≤ (W.seen walk.old).looks }
    ensures looked { LooksOn (IsErrOf result WalkFault.Failed) (W.seen walk.old) (W.seen walk.new) }
{
    if !clauses_hold(schema, spot, ssa.clauses.as_slice())? {
        return Ok(false);
    }
    if !asks_last(ssa) {
        return Ok(true);
    }
    Ok(!has_later_twin(walk, schema, ssa, spot)?)
}

/// Whether the clauses are true of a later twin of an element. Twins are passed from one to the next, and nothing below
/// them is looked at.
fn has_later_twin<W: Walk>(
    walk: &mut W,
    schema: &Schema,
    ssa: &Ssa,
    spot: &Spot,
) -> Result<bool, WalkFault>
    requires live { IsTrue (W.seen walk.old).live }
    requires schema { (W.seen walk.old).schema ≡ schema.now }
    requires shown { IsShown schema.now (W.seen walk.old) spot.now }
    ensures has { IfOk result (λ has. IfSome (W.seen walk.old).forest
        (λ rows. has ≡ list_any (λ other. clauses_hold (clause_holds schema.now None spot.now.code other) ssa.now.clauses)
        (later_twins (plain_view schema.now rows) spot.now))) }
    ensures looked { LooksOn (IsErrOf result WalkFault.Failed) (W.seen walk.old) (W.seen walk.new) }
{
    places_differ();
    levels_are_of_types();
    let mut next = walk.past(None, spot)?;
    for _look in 0..u64::MAX {
        let Some(other) = next else {
            return Ok(false);
        };
        if other.level < spot.level {
            return Ok(false);
        }
        if is_such_twin(schema, ssa, spot.code, &other)? {
            return Ok(true);
        }
        next = walk.past(None, &other)?;
    }
    Err(WalkFault::Memory)
}

/// Whether an element is of a type and the clauses are true of it.
fn is_such_twin(schema: &Schema, ssa: &Ssa, code: u8, other: &Spot) -> Result<bool, Memory>
    ensures { IfOk result (λ is. is ≡ ((other.now.code == code) && clauses_hold (clause_holds schema.now None code other.now) ssa.now.clauses)) }
{
    if other.code != code {
        return Ok(false);
    }
    clauses_hold(schema, other, ssa.clauses.as_slice())
}
