// The row that a session holds.
ghost use Rattle.std.specs.Prelude.{◌≡◌, IfOk, IfSome, IsErrOf, IsTrue, None};
ghost use Rattle.position_state.specs.AfterChange.{LooksUpTo};
ghost use Rattle.position_state.specs.declared.session.Anchor.TheVariants.{At};
ghost use Rattle.position_state.specs.View.{view_of};
ghost use Rattle.call_changes.specs.Moves.{IsHeldRow, row_at};

use hal_base::{Ilk, Key, Memory};
use hal_schema::Schema;
use position_state::{Anchor, Session, Spot, Walk, WalkFault};

/// The element of the held row, in a session that sees the database in hierarchic sequence.
pub(crate) fn held_row<W: Walk>(
    schema: &Schema,
    session: &Session,
    walk: &mut W,
) -> Result<Option<Spot>, WalkFault>
    requires live { IsTrue (W.seen walk.old).live }
    requires schema { (W.seen walk.old).schema ≡ schema.now }
    ensures held { IfOk result (IsHeldRow schema.now (W.seen walk.old) session.now) }
    ensures looked { LooksUpTo 1 (IsErrOf result WalkFault.Failed) (W.seen walk.old) (W.seen walk.new) }
{
    match &session.held {
        None => Ok(None),
        Some(at) => row_at(walk, at),
    }
}

/// The element of the row at a place.
fn row_at<W: Walk>(walk: &mut W, at: &Anchor) -> Result<Option<Spot>, WalkFault>
    requires live { IsTrue (W.seen walk.old).live }
    ensures row { IfOk result (λ row. IfSome (W.seen walk.old).forest (λ rows. row ≡ row_at at.now (view_of (W.seen walk.old).schema None rows))) }
    ensures looked { LooksUpTo 1 (IsErrOf result WalkFault.Failed) (W.seen walk.old) (W.seen walk.new) }
{
    match at {
        Anchor::Front => Ok(None),
        Anchor::At { name, root, .. } => {
            let place = place_of(name, root)?;
            walk.here(None, &place)
        }
    }
}

/// The place of a row in hierarchic sequence.
fn place_of(name: &Ilk, root: &Key) -> Result<Anchor, Memory>
    ensures { IfOk result (λ at. at ≡ At name.now root.now None) }
{
    Ok(Anchor::At {
        name: *name,
        root: root.copy()?,
        entry: None,
    })
}
