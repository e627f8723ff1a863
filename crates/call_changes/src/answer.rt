// What a call of a script is answered, and what it leaves of the open sessions.
ghost use Rattle.std.specs.Prelude.{◌≡◌, IfOk, IfSome, IsErrOf, IsTrue};
ghost use Rattle.std.specs.List.{list_all};
ghost use Rattle.call_runs.specs.Sessions.{is_named};
ghost use Rattle.call_runs.specs.Steps.{set_on_new};
ghost use Rattle.call_changes.specs.Answer.{AllStandIn, IsAnswer, StandsIn, is_plain, session_left, sessions_left, unanswered};
ghost use Rattle.call_changes.specs.Outcome.{IsLawfulIn, OnlyLooks};

use crate::calls::decide;
use call_runs::{OpenSession, copied_sessions, is_named, session_of};
use call_text::{Call, Reply};
use dli_calls::Decision;
use hal_base::{Ilk, List, Memory};
use hal_schema::Schema;
use position_state::{Anchor, Change, Session, Walk, WalkFault};
use std::alloc::Global;

/// What a call is answered, what it changes, and what it leaves of all open sessions.
#[derive(Debug, Drop)]
pub struct Answer {
    pub reply: Reply,
    pub change: Change,
    pub sessions: List<OpenSession>,
}

/// What a call of a script is answered over the list as it is, before the change is made, where a new row gets this name;
/// `+S 5` where the script has no open session that the call names.
pub fn answer_call<W: Walk>(
    alloc: Global,
    schema: &Schema,
    sessions: &[OpenSession],
    script: Option<u16>,
    call: &Call,
    name: Ilk,
    walk: &mut W,
) -> Result<Answer, WalkFault>
    requires live { IsTrue (W.seen walk.old).live }
    requires schema { (W.seen walk.old).schema ≡ schema.now }
    requires plain { IsTrue (list_all is_plain sessions.now) }
    requires stand { AllStandIn (W.seen walk.old) sessions.now }
    ensures answered { IfOk result (IsAnswer (W.seen walk.old) sessions.now script call.now name) }
    ensures looked { OnlyLooks (IsErrOf result WalkFault.Failed) (W.seen walk.old) (W.seen walk.new) }
{
    let Some(own) = session_of(sessions, script, call.session) else {
        return Ok(unanswered(alloc, sessions)?);
    };
    let decision = decide(alloc, schema, &own.session, call, walk)?;
    let sessions = sessions_left(alloc, schema, script, call, &decision, name, sessions, walk)?;
    Ok(Answer {
        reply: decision.reply,
        change: decision.change,
        sessions,
    })
}

/// The call names no open session of its script.
fn unanswered(alloc: Global, sessions: &[OpenSession]) -> Result<Answer, Memory>
    ensures { IfOk result (λ answer. answer ≡ unanswered sessions.now) }
{
    Ok(Answer {
        reply: Reply {
            status: *b"+S",
            seg: None,
            part: None,
            number: Some(5),
        },
        change: Change::Nothing,
        sessions: copied_sessions(alloc, sessions)?,
    })
}

/// What a decision leaves of the open sessions.
fn sessions_left<W: Walk>(
    alloc: Global,
    schema: &Schema,
    script: Option<u16>,
    call: &Call,
    decision: &Decision,
    name: Ilk,
    sessions: &[OpenSession],
    walk: &mut W,
) -> Result<List<OpenSession>, WalkFault>
    requires live { IsTrue (W.seen walk.old).live }
    requires schema { (W.seen walk.old).schema ≡ schema.now }
    requires plain { IsTrue (list_all is_plain sessions.now) }
    requires stand { AllStandIn (W.seen walk.old) sessions.now }
    requires lawful { IsLawfulIn schema.now (W.seen walk.old) decision.now }
    ensures left { IfOk result (λ left. IfSome (W.seen walk.old).forest (λ rows. left ≡ sessions_left schema.now rows script call.now decision.now name sessions.now)) }
    ensures looked { OnlyLooks (IsErrOf result WalkFault.Failed) (W.seen walk.old) (W.seen walk.new) }
{
    let mut left = List::new(alloc);
    for one in sessions {
        let session = session_left(schema, script, call, decision, name, one, walk)?;
        left.push(one.with(session))?;
    }
    Ok(left)
}

/// What it leaves of one: of its own session what was decided, of any other what the change leaves of it.
fn session_left<W: Walk>(
    schema: &Schema,
    script: Option<u16>,
    call: &Call,
    decision: &Decision,
    name: Ilk,
    one: &OpenSession,
    walk: &mut W,
) -> Result<Session, WalkFault>
    requires live { IsTrue (W.seen walk.old).live }
    requires schema { (W.seen walk.old).schema ≡ schema.now }
    requires plain { IsTrue (is_plain one.now) }
    requires stand { StandsIn (W.seen walk.old) one.now }
    requires lawful { IsLawfulIn schema.now (W.seen walk.old) decision.now }
    ensures left { IfOk result (λ left. IfSome (W.seen walk.old).forest (λ rows.
        left ≡ session_left schema.now rows script call.now decision.now name one.now)) }
    ensures looked { OnlyLooks (IsErrOf result WalkFault.Failed) (W.seen walk.old) (W.seen walk.new) }
{
    if is_named(script, call.session, one) {
        return Ok(set_on_new(&decision.change, name, decision.session.copy()?)?);
    }
    one.session.after_change(schema, &decision.change, walk)
}

/// An ISRT sets its session on the new row.
fn set_on_new(change: &Change, name: Ilk, session: Session) -> Result<Session, Memory>
    ensures { IfOk result (λ set. set ≡ set_on_new change.now name session) }
{
    let mut session = session;
    if let Change::Insert { root, .. } = change {
        session.anchor = Anchor::At {
            name,
            root: root.copy()?,
            entry: None,
        };
    }
    Ok(session)
}
