// What a REPL is answered, and what it leaves of its session.
ghost use Rattle.std.specs.Prelude.{◌≡◌, ◌+◌, length, true, not, IfOk, IfSome, IsErrOf, IsTrue, None};
ghost use Rattle.std.specs.Option.{ForSome};
ghost use Rattle.std.specs.Str.{bytes_eq};
ghost use Rattle.dli_calls.specs.Refusals.{is_replace};
ghost use Rattle.position_state.specs.AfterChange.{LooksUpTo};
ghost use Rattle.position_state.specs.Lawful.{Stands};
ghost use Rattle.hal_schema.specs.SegType.{key_in};
ghost use Rattle.call_changes.specs.Moves.{MayHave, replaced_row};
ghost use Rattle.call_changes.specs.Outcome.{IsDecision, IsLawfulIn, replacement_of};

use crate::content::content_for;
use crate::held::held_row;
use crate::moves::moved_entries;
use crate::outcome::{carry_out, refused, refused_for_room};
use call_gets::text_refusal;
use call_text::Call;
use dli_calls::Decision;
use hal_base::{Bytes, Memory};
use hal_schema::{Schema, key_in};
use position_state::{Anchor, Change, Session, Spot, Walk, WalkFault};
use std::alloc::Global;

/// The decision of a REPL, in a session that sees the database in hierarchic sequence: the held row gets the call's data.
/// The row is looked at once, and each index at most once.
pub fn decide_replace<W: Walk>(
    alloc: Global,
    schema: &Schema,
    session: &Session,
    call: &Call,
    walk: &mut W,
) -> Result<Decision, WalkFault>
    requires live { IsTrue (W.seen walk.old).live }
    requires plain { session.now.index ≡ None }
    requires replace { is_replace call.now ≡ true }
    requires schema { (W.seen walk.old).schema ≡ schema.now }
    requires stands { ForSome (W.seen walk.old).forest (λ rows. Stands schema.now rows session.now) }
    ensures decided { IfOk result (IsDecision schema.now (W.seen walk.old) session.now call.now) }
    ensures lawful { IfOk result (IsLawfulIn schema.now (W.seen walk.old)) }
    ensures looked { LooksUpTo (1 + length schema.now.indexes) (IsErrOf result WalkFault.Failed) (W.seen walk.old) (W.seen walk.new) }
{
    if let Some(status) = text_refusal(schema, session, call) {
        return Ok(refused(session, status)?);
    }
    let Some(row) = held_row(schema, session, walk)? else {
        return Ok(refused(session, *b"+L")?);
    };
    let Some(content) = content_for(schema, row.code, call)? else {
        return Ok(refused(session, *b"+L")?);
    };
    if changes_key(schema, &row, &content) {
        return Ok(refused(session, *b"DA")?);
    }
    replace_row(alloc, schema, session, walk, &row, content)
}

fn changes_key(schema: &Schema, row: &Spot, content: &Bytes) -> bool
    ensures { result ≡ not (bytes_eq (key_in schema.now.types row.now.code content.now) (key_in schema.now.types row.now.code row.now.content)) }
{
    key_in(schema, row.code, content.as_slice()) != key_in(schema, row.code, row.content.as_slice())
}

/// What the indexes and the free blocks say of a REPL whose data fits and keeps the row's key.
fn replace_row<W: Walk>(
    alloc: Global,
    schema: &Schema,
    session: &Session,
    walk: &mut W,
    row: &Spot,
    content: Bytes,
) -> Result<Decision, WalkFault>
    requires live { IsTrue (W.seen walk.old).live }
    requires plain { session.now.index ≡ None }
    requires schema { (W.seen walk.old).schema ≡ schema.now }
    requires stands { ForSome (W.seen walk.old).forest (λ rows. Stands schema.now rows session.now) }
    requires may_have { ForSome (W.seen walk.old).forest (λ rows. MayHave schema.now rows session.now row.now content) }
    ensures replaced { IfOk result (λ d. IfSome (W.seen walk.old).forest (λ rows.
        d ≡ replaced_row schema.now rows (W.seen walk.old).free session.now row.now content)) }
    ensures lawful { IfOk result (IsLawfulIn schema.now (W.seen walk.old)) }
    ensures looked { LooksUpTo (length schema.now.indexes) (IsErrOf result WalkFault.Failed) (W.seen walk.old) (W.seen walk.new) }
{
    let Some(need) = moved_entries(alloc, schema, row, &content, walk)? else {
        return Ok(refused(session, *b"NI")?);
    };
    let need = u32::from(need);
    if walk.free() < need {
        return Ok(refused_for_room(session, need)?);
    }
    let change = replacement_of(&session.held, content)?;
    carry_out(schema, session, change, walk)
}

/// The replacement of a held row's content.
fn replacement_of(held: &Option<Anchor>, content: Bytes) -> Result<Change, Memory>
    ensures { IfOk result (λ change. change ≡ replacement_of held.now content) }
{
    match held {
        Some(Anchor::At { name, root, .. }) => Ok(Change::Replace {
            name: *name,
            root: root.copy()?,
            content,
        }),
        Some(Anchor::Front) | None => Ok(Change::Nothing),
    }
}
