// What an ISRT asks of the view: the first element that meets SSAs, and the element of a type on the path to a place.
ghost use Rattle.std.specs.Prelude.{◌≡◌, ◌==◌, find, if◌then◌else◌, option_and_then, IfOk, IfSome, IsErrOf, IsTrue, None};
ghost use Rattle.std.specs.List.{list_any, slice_get};
ghost use Rattle.std.specs.Option.{option_copied, option_map};
ghost use Rattle.position_state.specs.Looks.{stands_in};
ghost use Rattle.dli_calls.specs.Meets.{meets, on_paths};
ghost use Rattle.dli_calls.specs.Refusals.{asks_high_root};
ghost use Rattle.call_gets.specs.Keyed.{goes_below, root_wanted};
ghost use Rattle.call_gets.specs.Scan.{LooksOn, path_of, plain_view};
ghost use Rattle.call_gets.specs.Shown.{IsGiven};

use crate::answer::any_high_root;
use crate::gets::{first_behind, first_in_record, root_with};
use crate::keyed::{goes_below, root_wanted, wanted_by_one};
use crate::route::path_to;
use crate::scan::Met;
use call_text::Ssa;
use hal_base::{Bytes, Memory};
use hal_schema::Schema;
use position_state::{Anchor, Spot, Walk, WalkFault};
use std::alloc::Global;
use view_laws::{places_differ, roots_are_keyed, roots_rise};

/// The first element of the view in hierarchic sequence that meets the SSAs. Where the first SSA wants the root key to equal
/// a value, only that root and what is below it are looked at.
pub fn first_that_meets<W: Walk>(
    alloc: Global,
    walk: &mut W,
    schema: &Schema,
    ssas: &[Ssa],
) -> Result<Option<Spot>, WalkFault>
    requires live { IsTrue (W.seen walk.old).live }
    requires schema { (W.seen walk.old).schema ≡ schema.now }
    ensures met { IfOk result (λ spot. IfSome (W.seen walk.old).forest (λ rows.
        spot ≡ option_map (λ p. p.1) (find (meets schema.now None (plain_view schema.now rows) ssas.now) (on_paths (plain_view schema.now rows))))) }
    ensures looked { LooksOn (IsErrOf result WalkFault.Failed) (W.seen walk.old) (W.seen walk.new) }
{
    match first_of_view(alloc, walk, schema, ssas)? {
        None => Ok(None),
        Some(met) => Ok(Some(met.spot)),
    }
}

fn first_of_view<W: Walk>(
    alloc: Global,
    walk: &mut W,
    schema: &Schema,
    ssas: &[Ssa],
) -> Result<Option<Met>, WalkFault>
    requires live { IsTrue (W.seen walk.old).live }
    requires schema { (W.seen walk.old).schema ≡ schema.now }
    ensures got { IfOk result (IsGiven schema.now ssas.now (W.seen walk.old) (λ view. find (meets schema.now None view ssas.now) (on_paths view))) }
    ensures looked { LooksOn (IsErrOf result WalkFault.Failed) (W.seen walk.old) (W.seen walk.new) }
{
    places_differ();
    roots_are_keyed();
    roots_rise();
    if let Some(key) = wanted_by_one(schema, ssas)? {
        return root_with(alloc, walk, &key);
    }
    match record_wanted(schema, ssas)? {
        None => first_behind(alloc, walk, schema, ssas, &Anchor::Front),
        Some(key) => first_in_record(alloc, walk, schema, ssas, &key),
    }
}

/// The root key that the first SSA wants, where the last is of a type below the root's.
fn record_wanted(schema: &Schema, ssas: &[Ssa]) -> Result<Option<Bytes>, Memory>
    ensures { IfOk result (λ key. key ≡ (if goes_below schema.now ssas.now then option_and_then (root_wanted schema.now) (slice_get ssas.now 0) else None)) }
{
    if !goes_below(schema, ssas) {
        return Ok(None);
    }
    match ssas.first() {
        None => Ok(None),
        Some(ssa) => root_wanted(schema, ssa),
    }
}

/// The element of a type on the path to a place; none at the front.
pub fn element_on_path<W: Walk>(
    alloc: Global,
    walk: &mut W,
    at: &Anchor,
    code: u8,
) -> Result<Option<Spot>, WalkFault>
    requires live { IsTrue (W.seen walk.old).live }
    requires there { IsTrue (stands_in (W.seen walk.old) None at.now) }
    ensures on_path { IfOk result (λ spot. IfSome (W.seen walk.old).forest (λ rows.
        spot ≡ find (λ s. s.code == code) (path_of at.now (plain_view (W.seen walk.old).schema rows)))) }
    ensures looked { LooksOn (IsErrOf result WalkFault.Failed) (W.seen walk.old) (W.seen walk.new) }
{
    let path = path_to(alloc, walk, at)?;
    Ok(copied(of_code(&path, code))?)
}

fn of_code(path: &[Spot], code: u8) -> Option<&Spot>
    ensures { option_copied result ≡ find (λ s. s.code == code) path.now }
{
    path.iter().find(|spot| spot.code == code)
}

fn copied(spot: Option<&Spot>) -> Result<Option<Spot>, Memory>
    ensures { IfOk result (λ copy. copy ≡ option_copied spot.entry) }
{
    match spot {
        None => Ok(None),
        Some(spot) => Ok(Some(spot.copy()?)),
    }
}

/// Whether one of the SSAs asks for a root key above every high key. IMS: status code FM.
pub fn any_asks_high_root(schema: &Schema, ssas: &[Ssa]) -> Result<bool, Memory>
    ensures { IfOk result (λ any. any ≡ list_any (asks_high_root schema.now) ssas.now) }
{
    any_high_root(schema, ssas)
}
