// What a DLET is answered, and what it leaves of its session.
ghost use Rattle.std.specs.Prelude.{◌≡◌, true, IfOk, IsErrOf, IsTrue, None};
ghost use Rattle.std.specs.Option.{ForSome};
ghost use Rattle.dli_calls.specs.Refusals.{is_delete};
ghost use Rattle.position_state.specs.AfterChange.{LooksUpTo, looks_for};
ghost use Rattle.position_state.specs.Lawful.{Stands};
ghost use Rattle.call_changes.specs.Outcome.{IsDecision, IsLawfulIn, deletion_of};

use crate::outcome::{carry_out, refused};
use call_gets::text_refusal;
use call_text::Call;
use dli_calls::Decision;
use hal_base::Memory;
use hal_schema::Schema;
use position_state::{Anchor, Change, Session, Walk, WalkFault};

/// The decision of a DLET, in a session that sees the database in hierarchic sequence: the held row is deleted with all
/// that is below it. Only what the deletion leaves of the session itself is looked for.
pub fn decide_delete<W: Walk>(
    schema: &Schema,
    session: &Session,
    call: &Call,
    walk: &mut W,
) -> Result<Decision, WalkFault>
    requires live { IsTrue (W.seen walk.old).live }
    requires plain { session.now.index ≡ None }
    requires delete { is_delete call.now ≡ true }
    requires schema { (W.seen walk.old).schema ≡ schema.now }
    requires stands { ForSome (W.seen walk.old).forest (λ rows. Stands schema.now rows session.now) }
    ensures decided { IfOk result (IsDecision schema.now (W.seen walk.old) session.now call.now) }
    ensures lawful { IfOk result (IsLawfulIn schema.now (W.seen walk.old)) }
    ensures looked { LooksUpTo (looks_for (W.seen walk.old) (deletion_of session.now.held) session.now)
        (IsErrOf result WalkFault.Failed) (W.seen walk.old) (W.seen walk.new) }
{
    if let Some(status) = text_refusal(schema, session, call) {
        return Ok(refused(session, status)?);
    }
    if call.content.is_some() {
        return Ok(refused(session, *b"+L")?);
    }
    let change = deletion_of(&session.held)?;
    carry_out(schema, session, change, walk)
}

/// The deletion of a held row.
fn deletion_of(held: &Option<Anchor>) -> Result<Change, Memory>
    ensures { IfOk result (λ change. change ≡ deletion_of held.now) }
{
    match held {
        Some(Anchor::At { name, root, .. }) => Ok(Change::Delete {
            name: *name,
            root: root.copy()?,
        }),
        Some(Anchor::Front) | None => Ok(Change::Nothing),
    }
}
