// Whether a twin of a new row has its sequence field. IMS: status code II.
ghost use Rattle.std.specs.Prelude.{◌≡◌, ◌+◌, ◌≤◌, is_some, not, IfOk, IfSome, IsErrOf, IsTrue, None};
ghost use Rattle.std.specs.Option.{ForSome};
ghost use Rattle.hal_schema.specs.Forest.{has_unique_key};
ghost use Rattle.hal_schema.specs.Insertion.{has_free_key};
ghost use Rattle.hal_schema.specs.SegType.{level_of};
ghost use Rattle.position_state.specs.Looks.{root_of_key};
ghost use Rattle.position_state.specs.View.{behind};
ghost use Rattle.call_gets.specs.Scan.{IsShown, LooksOn, plain_view};
ghost use Rattle.call_changes.specs.Inserts.{StandsBelow, any_deep, is_keyed_so, row_below};

use hal_base::Bytes;
use hal_schema::{Schema, key_in, root_order_is_total, schemas_are_kept, type_of};
use position_state::{Spot, Walk, WalkFault};
use view_laws::{levels_are_of_types, places_differ, roots_are_keyed};

/// Whether a twin of a new row has its sequence field, where that is unique. A root is looked for by its key; the
/// children of a parent are passed from one to the next, and nothing below them is looked at.
pub(crate) fn has_equal_twin<W: Walk>(
    schema: &Schema,
    code: u8,
    parent: &Option<Spot>,
    content: &Bytes,
    walk: &mut W,
) -> Result<bool, WalkFault>
    requires live { IsTrue (W.seen walk.old).live }
    requires schema { (W.seen walk.old).schema ≡ schema.now }
    requires below { ForSome (W.seen walk.old).forest (λ rows. StandsBelow schema.now rows code parent.now) }
    ensures has { IfOk result (λ has. IfSome (W.seen walk.old).forest (λ rows.
        has ≡ not (has_free_key schema.now rows (row_below code parent.now content.now)))) }
    ensures few { parent.now ≡ None → (W.seen walk.new).looks ≤ (W.seen walk.old).looks + 1 }
    ensures looked { LooksOn (IsErrOf result WalkFault.Failed) (W.seen walk.old) (W.seen walk.new) }
{
    places_differ();
    roots_are_keyed();
    root_order_is_total();
    schemas_are_kept();
    if !has_unique_key(schema, code) {
        return Ok(false);
    }
    let key = key_in(schema, code, content.as_slice());
    match parent {
        None => has_root_with(schema, key, walk),
        Some(above) => has_child_with(schema, code, above, key, walk),
    }
}

fn has_unique_key(schema: &Schema, code: u8) -> bool
    ensures { result ≡ has_unique_key schema.now.types code }
{
    match type_of(schema, code) {
        None => false,
        Some(seg_type) => match seg_type.key {
            None => false,
            Some(key) => key.unique,
        },
    }
}

fn has_root_with<W: Walk>(schema: &Schema, key: &[u8], walk: &mut W) -> Result<bool, WalkFault>
    requires live { IsTrue (W.seen walk.old).live }
    requires schema { (W.seen walk.old).schema ≡ schema.now }
    ensures has { IfOk result (λ has. IfSome (W.seen walk.old).forest (λ rows. has ≡ is_some (root_of_key key.now (plain_view schema.now rows)))) }
    ensures few { (W.seen walk.new).looks ≤ (W.seen walk.old).looks + 1 }
    ensures looked { LooksOn (IsErrOf result WalkFault.Failed) (W.seen walk.old) (W.seen walk.new) }
{
    Ok(walk.at_root(key)?.is_some())
}

/// Whether a child of this type has this sequence field.
fn has_child_with<W: Walk>(
    schema: &Schema,
    code: u8,
    above: &Spot,
    key: &[u8],
    walk: &mut W,
) -> Result<bool, WalkFault>
    requires live { IsTrue (W.seen walk.old).live }
    requires schema { (W.seen walk.old).schema ≡ schema.now }
    requires shown { IsShown schema.now (W.seen walk.old) above.now }
    requires level { ForSome (W.seen walk.old).forest (λ rows. level_of schema.now.types code ≡ above.now.level + 1) }
    ensures has { IfOk result (λ has. IfSome (W.seen walk.old).forest (λ rows.
        has ≡ any_deep above.now.level (is_keyed_so schema.now.types code key.now) (behind above.now.at (plain_view schema.now rows)))) }
    ensures looked { LooksOn (IsErrOf result WalkFault.Failed) (W.seen walk.old) (W.seen walk.new) }
{
    places_differ();
    levels_are_of_types();
    let mut next = walk.after(None, &above.at)?;
    for _look in 0..u64::MAX {
        let Some(spot) = next else {
            return Ok(false);
        };
        if spot.level <= above.level {
            return Ok(false);
        }
        if is_keyed_so(schema, code, key, &spot) {
            return Ok(true);
        }
        next = walk.past(None, &spot)?;
    }
    Err(WalkFault::Memory)
}

fn is_keyed_so(schema: &Schema, code: u8, key: &[u8], spot: &Spot) -> bool
    ensures { result ≡ is_keyed_so schema.now.types code key.now spot.now }
{
    spot.code == code && key_in(schema, code, spot.content.as_slice()) == key
}
