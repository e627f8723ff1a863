// The decision of a call.
ghost use Rattle.std.specs.Prelude.{◌≡◌, IfOk, IsErrOf, IsTrue, None};
ghost use Rattle.std.specs.Option.{ForSome};
ghost use Rattle.position_state.specs.Lawful.{Stands};
ghost use Rattle.call_changes.specs.Outcome.{IsDecision, IsLawfulIn, LooksFew, OnlyLooks};

use crate::delete::decide_delete;
use crate::insert::decide_insert;
use crate::outcome::refused;
use crate::replace::decide_replace;
use call_gets::{decide_get, is_delete, is_get, is_insert, is_replace};
use call_text::Call;
use dli_calls::Decision;
use hal_schema::Schema;
use position_state::{Session, Walk, WalkFault};
use std::alloc::Global;

/// The decision of a call, by its function, in a session that sees the database in hierarchic sequence. Of the calls that
/// change, `few` says how often they look; that a dependent's ISRT does isn't bounded.
pub fn decide<W: Walk>(
    alloc: Global,
    schema: &Schema,
    session: &Session,
    call: &Call,
    walk: &mut W,
) -> Result<Decision, WalkFault>
    requires live { IsTrue (W.seen walk.old).live }
    requires plain { session.now.index ≡ None }
    requires schema { (W.seen walk.old).schema ≡ schema.now }
    requires stands { ForSome (W.seen walk.old).forest (λ rows. Stands schema.now rows session.now) }
    ensures decided { IfOk result (IsDecision schema.now (W.seen walk.old) session.now call.now) }
    ensures lawful { IfOk result (IsLawfulIn schema.now (W.seen walk.old)) }
    ensures few { LooksFew schema.now session.now call.now (W.seen walk.old) (W.seen walk.new) }
    ensures looked { OnlyLooks (IsErrOf result WalkFault.Failed) (W.seen walk.old) (W.seen walk.new) }
{
    if is_get(call) {
        return decide_get(alloc, schema, session, call, walk);
    }
    if is_insert(call) {
        return decide_insert(alloc, schema, session, call, walk);
    }
    if is_replace(call) {
        return decide_replace(alloc, schema, session, call, walk);
    }
    if is_delete(call) {
        return decide_delete(schema, session, call, walk);
    }
    Ok(refused(session, *b"AD")?)
}
