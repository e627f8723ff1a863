// What an ISRT is answered, and what it leaves of its session.
ghost use Rattle.std.specs.Prelude.{◌≡◌, ◌==◌, ◌||◌, ◌+◌, ◌≤◌, length, true, not, is_some, option_and_then, IfOk, IfSome, IsErrOf, IsTrue, None};
ghost use Rattle.std.specs.List.{list_any};
ghost use Rattle.std.specs.Option.{ForSome, option_map};
ghost use Rattle.hal_schema.specs.SegType.{type_of};
ghost use Rattle.dli_calls.specs.Changes.{inserted_code, name_at, need_of_insert};
ghost use Rattle.dli_calls.specs.Gets.{name_of_type};
ghost use Rattle.dli_calls.specs.Refusals.{asks_high_root, is_insert};
ghost use Rattle.position_state.specs.Lawful.{Stands};
ghost use Rattle.call_gets.specs.Scan.{LooksOn};
ghost use Rattle.call_changes.specs.Inserts.{StandsBelow, inserted_below, is_high_root, key_below, placed_below, root_below};
ghost use Rattle.call_changes.specs.Outcome.{IsDecision, IsLawfulIn};

use crate::content::content_for;
use crate::enters::enters_all;
use crate::outcome::{refused, refused_for_room, reply_of, unheld};
use crate::parent::{inserted_code, parent_of};
use crate::twins::has_equal_twin;
use call_gets::{any_asks_high_root, text_refusal};
use call_text::{Call, SegOut};
use dli_calls::Decision;
use hal_base::{Bytes, Ilk, Key, Memory, Name8};
use hal_schema::{Schema, key_in, select, type_of};
use position_state::{Anchor, Change, Session, Spot, Walk, WalkFault};
use std::alloc::Global;
use view_laws::places_differ;

/// The decision of an ISRT, in a session that sees the database in hierarchic sequence. The session still stands where it
/// stood; whoever makes the change sets it on the new row. An ISRT of a root looks once for its key, and once for each
/// index at most.
pub fn decide_insert<W: Walk>(
    alloc: Global,
    schema: &Schema,
    session: &Session,
    call: &Call,
    walk: &mut W,
) -> Result<Decision, WalkFault>
    requires live { IsTrue (W.seen walk.old).live }
    requires plain { session.now.index ≡ None }
    requires insert { is_insert call.now ≡ true }
    requires schema { (W.seen walk.old).schema ≡ schema.now }
    requires stands { ForSome (W.seen walk.old).forest (λ rows. Stands schema.now rows session.now) }
    ensures decided { IfOk result (IsDecision schema.now (W.seen walk.old) session.now call.now) }
    ensures lawful { IfOk result (IsLawfulIn schema.now (W.seen walk.old)) }
    ensures few { inserted_code schema.now call.now ≡ 1 → (W.seen walk.new).looks ≤ (W.seen walk.old).looks + (1 + length schema.now.indexes) }
    ensures looked { LooksOn (IsErrOf result WalkFault.Failed) (W.seen walk.old) (W.seen walk.new) }
{
    places_differ();
    if let Some(status) = text_refusal(schema, session, call) {
        return Ok(refused(session, status)?);
    }
    let code = inserted_code(schema, call);
    let Some(name) = name_of_type(schema, code) else {
        return Ok(refused(session, *b"+L")?);
    };
    let Some(content) = content_for(schema, code, call)? else {
        return Ok(refused(session, *b"+L")?);
    };
    if asks_too_high(schema, call, code, &content)? {
        return Ok(refused(session, *b"FM")?);
    }
    let parent = parent_of(alloc, schema, session, call, code, walk)?;
    if lacks_parent(code, &parent) {
        return Ok(refused(session, *b"GE")?);
    }
    insert_below(alloc, schema, session, walk, code, name, &parent, content)
}

/// Each row but a root has a parent.
fn lacks_parent(code: u8, parent: &Option<Spot>) -> bool
    ensures { result ≡ not (code == 1 || is_some parent.now) }
{
    code != 1 && parent.is_none()
}

/// A root key above every high key, asked for by an SSA or in the new row.
fn asks_too_high(schema: &Schema, call: &Call, code: u8, content: &Bytes) -> Result<bool, Memory>
    ensures { IfOk result (λ asks. asks ≡ (list_any (asks_high_root schema.now) call.now.ssas || is_high_root schema.now code content.now)) }
{
    if any_asks_high_root(schema, call.ssas.as_slice())? {
        return Ok(true);
    }
    Ok(is_high_root(schema, code, content))
}

fn is_high_root(schema: &Schema, code: u8, content: &Bytes) -> bool
    ensures { result ≡ is_high_root schema.now code content.now }
{
    code == 1 && select(schema, key_in(schema, code, content.as_slice())).is_none()
}

/// What the twins, the indexes and the free blocks say of a row below this element.
fn insert_below<W: Walk>(
    alloc: Global,
    schema: &Schema,
    session: &Session,
    walk: &mut W,
    code: u8,
    name: Name8,
    parent: &Option<Spot>,
    content: Bytes,
) -> Result<Decision, WalkFault>
    requires live { IsTrue (W.seen walk.old).live }
    requires schema { (W.seen walk.old).schema ≡ schema.now }
    requires name { name ≡ name_of_type schema.now code }
    requires below { ForSome (W.seen walk.old).forest (λ rows. StandsBelow schema.now rows code parent.now) }
    ensures placed { IfOk result (λ d. IfSome (W.seen walk.old).forest (λ rows.
        d ≡ placed_below schema.now rows (W.seen walk.old).free session.now code parent.now content)) }
    ensures few { parent.now ≡ None → (W.seen walk.new).looks ≤ (W.seen walk.old).looks + (1 + length schema.now.indexes) }
    ensures looked { LooksOn (IsErrOf result WalkFault.Failed) (W.seen walk.old) (W.seen walk.new) }
{
    if has_equal_twin(schema, code, parent, &content, walk)? {
        return Ok(refused(session, *b"II")?);
    }
    let keys = key_below(alloc, schema, code, parent, &content)?;
    if !enters_all(alloc, schema, code, &keys, &content, walk)? {
        return Ok(refused(session, *b"NI")?);
    }
    let need = need_of_insert(schema);
    if walk.free() < need {
        return Ok(refused_for_room(session, need)?);
    }
    Ok(inserted(alloc, schema, session, code, name, parent, content, keys)?)
}

/// Two blocks, and one for each index.
fn need_of_insert(schema: &Schema) -> u32
    ensures { result ≡ need_of_insert schema.now }
{
    2 + schema.indexes.len() as u32
}

/// The concatenated key of a row below this element.
fn key_below(
    alloc: Global,
    schema: &Schema,
    code: u8,
    parent: &Option<Spot>,
    content: &Bytes,
) -> Result<Key, Memory>
    ensures { IfOk result (λ keys. keys ≡ key_below schema.now.types code parent.now content.now) }
{
    let mut keys = match parent {
        None => Bytes::new(alloc),
        Some(above) => above.key.copy()?,
    };
    keys.append(key_in(schema, code, content.as_slice()))?;
    Ok(keys)
}

/// The key of the root above a row below this element.
fn root_below(
    alloc: Global,
    schema: &Schema,
    code: u8,
    parent: &Option<Spot>,
    content: &Bytes,
) -> Result<Key, Memory>
    ensures { IfOk result (λ root. root ≡ root_below schema.now.types code parent.now content.now) }
{
    match parent {
        None => Bytes::from_slice(alloc, key_in(schema, code, content.as_slice())),
        Some(above) => match &above.at {
            Anchor::Front => Ok(Bytes::new(alloc)),
            Anchor::At { root, .. } => root.copy(),
        },
    }
}

fn name_of(parent: &Option<Spot>) -> Option<Ilk>
    ensures { result ≡ option_and_then (λ spot. name_at spot.at) parent.now }
{
    match parent {
        None => None,
        Some(above) => match &above.at {
            Anchor::Front => None,
            Anchor::At { name, .. } => Some(*name),
        },
    }
}

/// The row is inserted: what is said, and the change.
fn inserted(
    alloc: Global,
    schema: &Schema,
    session: &Session,
    code: u8,
    name: Name8,
    parent: &Option<Spot>,
    content: Bytes,
    keys: Key,
) -> Result<Decision, Memory>
    requires name { name ≡ name_of_type schema.now code }
    requires keys { keys ≡ key_below schema.now.types code parent.now content }
    ensures { IfOk result (λ d. d ≡ inserted_below schema.now session.now code parent.now content) }
{
    let root = root_below(alloc, schema, code, parent, &content)?;
    let seg = SegOut {
        seg: name,
        key: keys,
        content: None,
    };
    Ok(Decision {
        reply: reply_of(*b"  ", Some(seg)),
        change: Change::Insert {
            parent: name_of(parent),
            root,
            code,
            content,
        },
        session: unheld(session.copy()?),
    })
}

fn name_of_type(schema: &Schema, code: u8) -> Option<Name8>
    ensures { result ≡ option_map (λ t. t.name) (type_of schema.now.types code) }
{
    Some(type_of(schema, code)?.name)
}
