// What a get is answered, and what it leaves of its session.
ghost use Rattle.std.specs.Prelude.{◌≡◌, is_some, ◌≤◌, ◌+◌, ◌==◌, ◌&&◌, length, true, false, codes, nat_lt, if◌then◌else◌, IfOk, IfSome, IsErrOf, IsTrue, None, Some};
ghost use Rattle.std.specs.List.{list_all, list_any};
ghost use Rattle.std.specs.Option.{ForSome, option_copied, option_map};
ghost use Rattle.hal_schema.specs.SegType.{type_of};
ghost use Rattle.position_state.specs.declared.spot.Change.TheVariants.{Nothing};
ghost use Rattle.position_state.specs.Lawful.{Stands};
ghost use Rattle.dli_calls.specs.Decided.{after_refusal, found, reply_of};
ghost use Rattle.dli_calls.specs.Gets.{after_get, crossing, got_status, is_get, is_hold, is_next, is_unique, shown_content};
ghost use Rattle.dli_calls.specs.Meets.{is_of};
ghost use Rattle.dli_calls.specs.Refusals.{asks_high_root};
ghost use Rattle.dli_calls.specs.Ssas.{asks_data};
ghost use Rattle.call_gets.specs.Scan.{IsDecided, LooksOn, on_its_path};
ghost use Rattle.call_gets.specs.Shown.{is_of_any, is_refused_unseen};
ghost use Rattle.call_gets.specs.Below.{IsWithinParent};
ghost use Rattle.call_gets.specs.Passed.{IsWithinPassed};
ghost use Rattle.call_gets.specs.Keyed.{IsWithinRecord, keyed_by};

use crate::form::asks_data;
use crate::functions::{is_hold, is_next, is_unique, is_within_parent};
use crate::gets::got;
use crate::high::asks_high_root;
use crate::judged::is_of;
use crate::refusals::text_refusal;
use crate::scan::Met;
use call_text::{Call, Reply, SegOut, Ssa};
use dli_calls::Decision;
use hal_base::{Bytes, Memory, Name8};
use hal_schema::{Schema, type_of};
use position_state::{Anchor, Change, Session, Spot, Walk, WalkFault};
use std::alloc::Global;

/// The decision of a get, in a session that sees the database in hierarchic sequence. Refusals by text and session come
/// before any look.
pub fn decide_get<W: Walk>(
    alloc: Global,
    schema: &Schema,
    session: &Session,
    call: &Call,
    walk: &mut W,
) -> Result<Decision, WalkFault>
    requires live { IsTrue (W.seen walk.old).live }
    requires plain { session.now.index ≡ None }
    requires get { is_get call.now ≡ true }
    requires schema { (W.seen walk.old).schema ≡ schema.now }
    requires stands { ForSome (W.seen walk.old).forest (λ rows. Stands schema.now rows session.now) }
    ensures decided { IfOk result (IsDecided schema.now (W.seen walk.old) session.now call.now) }
    ensures few { is_of_any call.now ≡ true → (W.seen walk.new).looks ≤ (W.seen walk.old).looks + 2 }
    ensures keyed { is_some (keyed_by schema.now call.now) ≡ true → (W.seen walk.new).looks ≤ (W.seen walk.old).looks + 1 }
    ensures within { IsWithinRecord schema.now call.now (W.seen walk.old) (W.seen walk.new) }
    ensures below { IfOk result (λ d. IsWithinParent 6 schema.now session.now call.now (W.seen walk.old) (W.seen walk.new)) }
    ensures passing { IfOk result (λ d. IsWithinPassed 4 schema.now session.now call.now (W.seen walk.old) (W.seen walk.new)) }
    ensures unseen { is_refused_unseen schema.now session.now call.now ≡ true → W.seen walk.new ≡ W.seen walk.old }
    ensures looked { LooksOn (IsErrOf result WalkFault.Failed) (W.seen walk.old) (W.seen walk.new) }
{
    if let Some(status) = text_refusal(schema, session, call) {
        return Ok(refused(session, status)?);
    }
    if call.content.is_some() {
        return Ok(refused(session, *b"+L")?);
    }
    if asks_for_high_root(schema, call)? {
        return Ok(refused(session, *b"FM")?);
    }
    match got(alloc, schema, session, call, walk)? {
        None => Ok(refused(session, status_of_none(call))?),
        Some(met) => found(alloc, schema, session, call, walk, &met),
    }
}

/// GB where a GN has no clause, else GE.
fn status_of_none(call: &Call) -> [u8; 2]
    ensures { result ≡ (if is_next call.now && list_all (λ ssa. length ssa.clauses == 0) call.now.ssas then codes "GB" else codes "GE") }
{
    if is_next(call) && has_no_clause(call) {
        *b"GB"
    } else {
        *b"GE"
    }
}

fn has_no_clause(call: &Call) -> bool
    ensures { result ≡ list_all (λ ssa. length ssa.clauses == 0) call.now.ssas }
{
    call.ssas
        .as_slice()
        .iter()
        .all(|ssa| ssa.clauses.len() == 0)
}

fn asks_for_high_root(schema: &Schema, call: &Call) -> Result<bool, Memory>
    ensures { IfOk result (λ asks. asks ≡ (is_unique call.now && list_any (asks_high_root schema.now) call.now.ssas)) }
{
    if !is_unique(call) {
        return Ok(false);
    }
    any_high_root(schema, call.ssas.as_slice())
}

pub(crate) fn any_high_root(schema: &Schema, ssas: &[Ssa]) -> Result<bool, Memory>
    ensures { IfOk result (λ any. any ≡ list_any (asks_high_root schema.now) ssas.now) }
{
    for ssa in ssas {
        if asks_high_root(schema, ssa)? {
            return Ok(true);
        }
    }
    Ok(false)
}

// ---- refusals

fn refused(session: &Session, status: [u8; 2]) -> Result<Decision, Memory>
    ensures { IfOk result (λ d. d ≡ record { reply = reply_of status None; change = Nothing; session = after_refusal status session.now }) }
{
    Ok(Decision {
        reply: reply_of(status, None),
        change: Change::Nothing,
        session: after_refusal(session, status)?,
    })
}

fn reply_of(status: [u8; 2], seg: Option<SegOut>) -> Reply
    ensures { result ≡ reply_of status seg }
{
    Reply {
        status,
        seg,
        part: None,
        number: None,
    }
}

/// Each call ends its session's hold; GB goes to the front and ends parentage.
fn after_refusal(session: &Session, status: [u8; 2]) -> Result<Session, Memory>
    ensures { IfOk result (λ after. after ≡ after_refusal status session.now) }
{
    let mut after = session.copy()?;
    after.held = None;
    if status.as_slice() == b"GB".as_slice() {
        after.anchor = Anchor::Front;
        after.parent = None;
    }
    Ok(after)
}

// ---- what was found

fn found<W: Walk>(
    alloc: Global,
    schema: &Schema,
    session: &Session,
    call: &Call,
    walk: &mut W,
    met: &Met,
) -> Result<Decision, WalkFault>
    requires live { IsTrue (W.seen walk.old).live }
    requires plain { session.now.index ≡ None }
    requires schema { (W.seen walk.old).schema ≡ schema.now }
    ensures found { IfOk result (λ d. IfSome (W.seen walk.old).forest (λ rows. d ≡ found schema.now rows session.now call.now (on_its_path met.now))) }
    ensures few { (W.seen walk.new).looks ≤ (W.seen walk.old).looks + 1 }
    ensures unique { is_unique call.now ≡ true → (W.seen walk.new).looks ≤ (W.seen walk.old).looks }
    ensures looked { LooksOn (IsErrOf result WalkFault.Failed) (W.seen walk.old) (W.seen walk.new) }
{
    let status = got_status(session, call, walk, &met.spot)?;
    let Some(seg) = name_of(schema, met.spot.code) else {
        return Err(WalkFault::Memory);
    };
    let content = shown_content(alloc, schema, call.ssas.as_slice(), met)?;
    let seg = SegOut {
        seg,
        key: met.spot.key.copy()?,
        content: Some(content),
    };
    Ok(Decision {
        reply: reply_of(status, Some(seg)),
        change: Change::Nothing,
        session: after_get(session, call, &met.spot)?,
    })
}

/// Only a get without an SSA that goes on from an element says what it crossed.
fn got_status<W: Walk>(
    session: &Session,
    call: &Call,
    walk: &mut W,
    spot: &Spot,
) -> Result<[u8; 2], WalkFault>
    requires live { IsTrue (W.seen walk.old).live }
    requires plain { session.now.index ≡ None }
    ensures status { IfOk result (λ status. IfSome (W.seen walk.old).forest
        (λ rows. status ≡ got_status (W.seen walk.old).schema rows call.now session.now spot.now)) }
    ensures few { (W.seen walk.new).looks ≤ (W.seen walk.old).looks + 1 }
    ensures unique { is_unique call.now ≡ true → (W.seen walk.new).looks ≤ (W.seen walk.old).looks }
    ensures looked { LooksOn (IsErrOf result WalkFault.Failed) (W.seen walk.old) (W.seen walk.new) }
{
    if is_unique(call) || call.ssas.len() != 0 {
        return Ok(*b"  ");
    }
    match walk.here(None, &session.anchor)? {
        None => Ok(*b"  "),
        Some(from) => Ok(crossing(&from, spot)),
    }
}

/// GA where a higher level was crossed, GK where another type of the level was reached.
fn crossing(from: &Spot, to: &Spot) -> [u8; 2]
    ensures { result ≡ crossing from.now to.now }
{
    if to.level < from.level {
        *b"GA"
    } else if to.level == from.level && to.code != from.code {
        *b"GK"
    } else {
        *b"  "
    }
}

fn name_of(schema: &Schema, code: u8) -> Option<Name8>
    ensures { result ≡ option_map (λ t. t.name) (type_of schema.now.types code) }
{
    Some(type_of(schema, code)?.name)
}

/// The content of the levels whose SSA has D, and of the last level, top down.
fn shown_content(alloc: Global, schema: &Schema, ssas: &[Ssa], met: &Met) -> Result<Bytes, Memory>
    ensures { IfOk result (λ content. content ≡ shown_content schema.now ssas.now (on_its_path met.now)) }
{
    let mut content = Bytes::new(alloc);
    let level = met.spot.level;
    for above in &met.above {
        if is_shown(schema, ssas, above, level) {
            content.append(above.content.as_slice())?;
        }
    }
    content.append(met.spot.content.as_slice())?;
    Ok(content)
}

fn is_shown(schema: &Schema, ssas: &[Ssa], above: &Spot, level: u8) -> bool
    ensures { result ≡ (nat_lt above.now.level level && list_any (λ ssa. asks_data ssa && is_of schema.now above.now ssa) ssas.now) }
{
    above.level < level && is_asked(schema, ssas, above)
}

fn is_asked(schema: &Schema, ssas: &[Ssa], above: &Spot) -> bool
    ensures { result ≡ list_any (λ ssa. asks_data ssa && is_of schema.now above.now ssa) ssas.now }
{
    ssas.iter().any(|ssa| asks_for(schema, ssa, above))
}

fn asks_for(schema: &Schema, ssa: &Ssa, above: &Spot) -> bool
    ensures { result ≡ (asks_data ssa.now && is_of schema.now above.now ssa.now) }
{
    asks_data(ssa) && is_of(schema, above, ssa)
}

/// Success sets the position; GU and GN set parentage; a hold form holds the row.
fn after_get(session: &Session, call: &Call, spot: &Spot) -> Result<Session, Memory>
    ensures { IfOk result (λ after. after ≡ after_get call.now session.now spot.now) }
{
    let mut after = session.copy()?;
    after.anchor = spot.at.copy()?;
    after.held = held_after(call, spot)?;
    if !is_within_parent(call) {
        after.parent = Some(spot.at.copy()?);
    }
    Ok(after)
}

fn held_after(call: &Call, spot: &Spot) -> Result<Option<Anchor>, Memory>
    ensures { IfOk result (λ held. held ≡ (if is_hold call.now then Some spot.now.at else None)) }
{
    if is_hold(call) {
        Ok(Some(spot.at.copy()?))
    } else {
        Ok(None)
    }
}
