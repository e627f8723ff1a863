// Refusals, and changes of the held row that are carried out.
ghost use Rattle.std.specs.Prelude.{◌≡◌, IfOk, IfSome, IsErrOf, IsTrue, None, Some, codes};
ghost use Rattle.position_state.specs.AfterChange.{AreOfList, LooksUpTo, looks_for};
ghost use Rattle.position_state.specs.Keep.{changed, kept_session};
ghost use Rattle.dli_calls.specs.Changes.{no_name};
ghost use Rattle.dli_calls.specs.Decided.{reply_of, unheld};
ghost use Rattle.call_changes.specs.Outcome.{carried, refused_with};

use call_text::{Reply, SegOut};
use dli_calls::Decision;
use hal_base::Memory;
use hal_schema::Schema;
use position_state::{Change, Session, Walk, WalkFault};

/// A refusal. It changes nothing, and ends the session's hold.
pub(crate) fn refused(session: &Session, status: [u8; 2]) -> Result<Decision, Memory>
    ensures { IfOk result (λ d. d ≡ refused_with status None session.now) }
{
    Ok(Decision {
        reply: reply_of(status, None),
        change: Change::Nothing,
        session: unheld(session.copy()?),
    })
}

/// A refusal for want of so many free blocks.
pub(crate) fn refused_for_room(session: &Session, need: u32) -> Result<Decision, Memory>
    ensures { IfOk result (λ d. d ≡ refused_with (codes "+R") (Some need) session.now) }
{
    let mut decision = refused(session, *b"+R")?;
    decision.reply.number = Some(need);
    Ok(decision)
}

/// A change of the held row is carried out: of its own session it leaves what it leaves of every other, without the hold.
pub(crate) fn carry_out<W: Walk>(
    schema: &Schema,
    session: &Session,
    change: Change,
    walk: &mut W,
) -> Result<Decision, WalkFault>
    requires live { IsTrue (W.seen walk.old).live }
    requires plain { session.now.index ≡ None }
    requires schema { (W.seen walk.old).schema ≡ schema.now }
    requires of_list { AreOfList (W.seen walk.old) change session.now }
    ensures carried { IfOk result (λ d. IfSome (W.seen walk.old).forest (λ rows.
        d ≡ carried change (kept_session schema.now change rows (changed schema.now change no_name rows) session.now))) }
    ensures looked { LooksUpTo (looks_for (W.seen walk.old) change session.now) (IsErrOf result WalkFault.Failed) (W.seen walk.old) (W.seen walk.new) }
{
    let left = session.after_change(schema, &change, walk)?;
    Ok(carried(change, left))
}

fn carried(change: Change, left: Session) -> Decision
    ensures { result ≡ carried change left }
{
    Decision {
        reply: reply_of(*b"  ", None),
        change,
        session: unheld(left),
    }
}

pub(crate) fn reply_of(status: [u8; 2], seg: Option<SegOut>) -> Reply
    ensures { result ≡ reply_of status seg }
{
    Reply {
        status,
        seg,
        part: None,
        number: None,
    }
}

/// Each call ends its session's hold.
pub(crate) fn unheld(session: Session) -> Session
    ensures { result ≡ unheld session }
{
    let mut session = session;
    session.held = None;
    session
}
