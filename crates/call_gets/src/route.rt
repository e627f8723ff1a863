// The path to a place of the view, climbed by looks.
ghost use Rattle.std.specs.Prelude.{◌≡◌, ◌≤◌, ◌+◌, ◌∷◌, length, IfOk, IfSome, OnOk, IsErrOf, IsTrue, None};
ghost use Rattle.std.specs.Option.{ForSome};
ghost use Rattle.position_state.specs.Looks.{stands_in};
ghost use Rattle.call_gets.specs.Scan.{IsPath, LooksOn, plain_view};

use hal_base::Memory;
use position_state::{Anchor, Spot, Walk, WalkFault};
use std::alloc::Global;
use view_laws::places_differ;

/// The elements on the path to a place, the root first and the element at the place last; none at the front.
pub(crate) fn path_to<W: Walk>(
    alloc: Global,
    walk: &mut W,
    at: &Anchor,
) -> Result<Vec<Spot>, WalkFault>
    requires live { IsTrue (W.seen walk.old).live }
    requires there { IsTrue (stands_in (W.seen walk.old) None at.now) }
    ensures path { IfOk result (λ path. IfSome (W.seen walk.old).forest (λ rows. IsPath (plain_view (W.seen walk.old).schema rows) at.now path.items)) }
    ensures few { IfOk result (λ path. (W.seen walk.new).looks ≤ (W.seen walk.old).looks + (1 + length path.items)) }
    ensures looked { LooksOn (IsErrOf result WalkFault.Failed) (W.seen walk.old) (W.seen walk.new) }
{
    places_differ();
    let mut path = Vec::new(alloc);
    let Some(spot) = walk.here(None, at)? else {
        return Ok(path);
    };
    let mut low = spot;
    for _step in 0..u64::MAX {
        let above = walk.above(None, &low)?;
        lead(&mut path, low)?;
        match above {
            None => return Ok(path),
            Some(up) => low = up,
        }
    }
    Err(WalkFault::Memory)
}

fn lead(path: &mut Vec<Spot>, spot: Spot) -> Result<(), Memory>
    ensures { OnOk result (path.new.items ≡ spot ∷ path.old.items) }
{
    path.insert(0, spot)?;
    Ok(())
}
