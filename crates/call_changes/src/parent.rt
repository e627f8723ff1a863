// The parent of a row that an ISRT inserts.
ghost use Rattle.std.specs.Prelude.{◌≡◌, ◌≤◌, IfOk, IfSome, IsErrOf, IsTrue, None};
ghost use Rattle.std.specs.Option.{ForSome, option_map_or};
ghost use Rattle.position_state.specs.Lawful.{Stands};
ghost use Rattle.dli_calls.specs.Changes.{all_but_last, inserted_code, parent_by_anchor};
ghost use Rattle.dli_calls.specs.Ssas.{code_named};
ghost use Rattle.call_gets.specs.Scan.{LooksOn};
ghost use Rattle.call_changes.specs.Inserts.{wanted_parent};

use call_gets::{code_named, element_on_path, first_that_meets, last_of};
use call_text::{Call, Ssa};
use hal_schema::{Schema, parent_code};
use position_state::{Session, Spot, Walk, WalkFault};
use std::alloc::Global;

/// The code of the type that an ISRT inserts, that of its last SSA; 0 where there is none.
pub(crate) fn inserted_code(schema: &Schema, call: &Call) -> u8
    ensures { result ≡ inserted_code schema.now call.now }
{
    match last_of(call.ssas.as_slice()) {
        None => 0,
        Some(ssa) => code_of(schema, ssa),
    }
}

fn code_of(schema: &Schema, ssa: &Ssa) -> u8
    ensures { result ≡ option_map_or (λ code. code) (code_named schema.now ssa.now.seg) 0 }
{
    match code_named(schema, ssa.seg) {
        None => 0,
        Some(code) => code,
    }
}

/// The element of the parent: with several SSAs the first that meets all but the last, with a lone SSA that of the parent
/// type on the path to the position. A root has none.
pub(crate) fn parent_of<W: Walk>(
    alloc: Global,
    schema: &Schema,
    session: &Session,
    call: &Call,
    code: u8,
    walk: &mut W,
) -> Result<Option<Spot>, WalkFault>
    requires live { IsTrue (W.seen walk.old).live }
    requires plain { session.now.index ≡ None }
    requires schema { (W.seen walk.old).schema ≡ schema.now }
    requires stands { ForSome (W.seen walk.old).forest (λ rows. Stands schema.now rows session.now) }
    requires code { code ≡ inserted_code schema.now call.now }
    ensures parent { IfOk result (λ parent. IfSome (W.seen walk.old).forest (λ rows. parent ≡ wanted_parent schema.now rows call.now session.now)) }
    ensures root { code ≡ 1 → IfOk result (λ parent. parent ≡ None) }
    ensures few { code ≡ 1 → (W.seen walk.new).looks ≤ (W.seen walk.old).looks }
    ensures looked { LooksOn (IsErrOf result WalkFault.Failed) (W.seen walk.old) (W.seen walk.new) }
{
    if code == 1 {
        return Ok(None);
    }
    let ssas = call.ssas.as_slice();
    if ssas.len() == 1 {
        return parent_by_anchor(alloc, schema, session, code, walk);
    }
    first_that_meets(alloc, walk, schema, all_but_last(ssas))
}

fn all_but_last(ssas: &[Ssa]) -> &[Ssa]
    ensures { result.now ≡ all_but_last ssas.now }
{
    &ssas[..ssas.len().saturating_sub(1)]
}

fn parent_by_anchor<W: Walk>(
    alloc: Global,
    schema: &Schema,
    session: &Session,
    code: u8,
    walk: &mut W,
) -> Result<Option<Spot>, WalkFault>
    requires live { IsTrue (W.seen walk.old).live }
    requires plain { session.now.index ≡ None }
    requires schema { (W.seen walk.old).schema ≡ schema.now }
    requires stands { ForSome (W.seen walk.old).forest (λ rows. Stands schema.now rows session.now) }
    ensures parent { IfOk result (λ parent. IfSome (W.seen walk.old).forest (λ rows. parent ≡ parent_by_anchor schema.now rows code session.now)) }
    ensures looked { LooksOn (IsErrOf result WalkFault.Failed) (W.seen walk.old) (W.seen walk.new) }
{
    match parent_code(schema, code) {
        None => Ok(None),
        Some(above) => element_on_path(alloc, walk, &session.anchor, above),
    }
}
