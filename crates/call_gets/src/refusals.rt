// Why a call is refused by its text and its session.
ghost use Rattle.std.specs.Prelude.{◌≡◌, ◌==◌, ◌&&◌, ◌||◌, nat_lt, not, is_none, length, true, false};
ghost use Rattle.std.specs.List.{list_all, list_any, last_or, slice_get};
ghost use Rattle.std.specs.Option.{option_map_or};
ghost use Rattle.hal_schema.specs.SegType.{is_parent_code};
ghost use Rattle.dli_calls.specs.Gets.{is_get, is_within_parent};
ghost use Rattle.dli_calls.specs.Refusals.{any_subject, each_next, first_that_holds, has_odd_code, has_odd_operator, is_bare, is_below_type, is_delete};
ghost use Rattle.dli_calls.specs.Refusals.{is_in_subtree, is_insert, is_malformed, is_misfit, is_off_path, is_replace, is_unknown, text_refusals};
ghost use Rattle.call_gets.specs.Texts.{codes_in, later_of, stand_so};
ghost use Rattle.dli_calls.specs.Ssas.{asks_data, code_named, index_of};

use crate::form::{asks_data, has_odd_code, has_odd_operator, is_bare, last_of};
use crate::functions::{is_delete, is_get, is_insert, is_replace, is_within_parent};
use crate::names::{code_named, index_of};
use crate::options::is_not_allowed;
use crate::path::{is_below_type, is_in_subtree};
use crate::subjects::{has_misfit, has_unknown};
use call_text::{Call, Ssa};
use hal_schema::{Schema, is_parent_code};
use position_state::Session;

/// The first refusal that a call's text and its session give, in the order of the statuses.
pub fn text_refusal(schema: &Schema, session: &Session, call: &Call) -> Option<[u8; 2]>
    ensures { result ≡ first_that_holds (text_refusals schema.now session.now call.now) }
{
    if !is_known(call) {
        return Some(*b"AD");
    }
    if is_not_allowed(session, call) {
        return Some(*b"AM");
    }
    if lacks_segment(call) {
        return Some(*b"AH");
    }
    if is_malformed(schema, session, call) {
        return Some(*b"AJ");
    }
    if names_unknown(schema, session, call) {
        return Some(*b"AK");
    }
    if is_off_path(schema, session, call) {
        return Some(*b"AC");
    }
    if lacks_parentage(session, call) {
        return Some(*b"GP");
    }
    if lacks_hold(session, call) {
        return Some(*b"DJ");
    }
    None
}

fn is_known(call: &Call) -> bool
    ensures { result ≡ (is_get call.now || is_insert call.now || is_replace call.now || is_delete call.now) }
{
    is_get(call) || is_insert(call) || is_replace(call) || is_delete(call)
}

/// An ISRT that names no segment.
fn lacks_segment(call: &Call) -> bool
    ensures { result ≡ (is_insert call.now && (length call.now.ssas == 0)) }
{
    is_insert(call) && call.ssas.len() == 0
}

fn lacks_parentage(session: &Session, call: &Call) -> bool
    ensures { result ≡ (is_within_parent call.now && is_none session.now.parent) }
{
    is_within_parent(call) && session.parent.is_none()
}

fn lacks_hold(session: &Session, call: &Call) -> bool
    ensures { result ≡ ((is_replace call.now || is_delete call.now) && is_none session.now.held) }
{
    (is_replace(call) || is_delete(call)) && session.held.is_none()
}

// ---- AJ

fn is_malformed(schema: &Schema, session: &Session, call: &Call) -> bool
    ensures { result ≡ is_malformed schema.now session.now call.now }
{
    has_odd_codes(call)
        || inserts_oddly(call)
        || names_needlessly(call)
        || call.ssas.len() > 15
        || has_odd_operators(call)
        || has_misfits(schema, session, call)
}

fn has_odd_codes(call: &Call) -> bool
    ensures { result ≡ list_any has_odd_code call.now.ssas }
{
    call.ssas.as_slice().iter().any(|ssa| has_odd_code(ssa))
}

/// An ISRT with D, or whose last SSA says more than its segment.
fn inserts_oddly(call: &Call) -> bool
    ensures { result ≡ (is_insert call.now && (list_any asks_data call.now.ssas || not (option_map_or is_bare (last_or None call.now.ssas) true))) }
{
    is_insert(call) && (asks_any_data(call) || !ends_bare(call.ssas.as_slice()))
}

fn asks_any_data(call: &Call) -> bool
    ensures { result ≡ list_any asks_data call.now.ssas }
{
    call.ssas.as_slice().iter().any(|ssa| asks_data(ssa))
}

fn ends_bare(ssas: &[Ssa]) -> bool
    ensures { result ≡ option_map_or is_bare (last_or None ssas.now) true }
{
    match last_of(ssas) {
        None => true,
        Some(ssa) => is_bare(ssa),
    }
}

/// A REPL or a DLET with an SSA.
fn names_needlessly(call: &Call) -> bool
    ensures { result ≡ ((is_replace call.now || is_delete call.now) && not (length call.now.ssas == 0)) }
{
    (is_replace(call) || is_delete(call)) && call.ssas.len() != 0
}

fn has_odd_operators(call: &Call) -> bool
    ensures { result ≡ list_any has_odd_operator call.now.ssas }
{
    call.ssas.as_slice().iter().any(|ssa| has_odd_operator(ssa))
}

fn has_misfits(schema: &Schema, session: &Session, call: &Call) -> bool
    ensures { result ≡ list_any (any_subject schema.now session.now.index is_misfit) call.now.ssas }
{
    let index = session.index;
    call.ssas
        .as_slice()
        .iter()
        .any(|ssa| has_misfit(schema, index, ssa))
}

// ---- AK

fn names_unknown(schema: &Schema, session: &Session, call: &Call) -> bool
    ensures { result ≡ list_any (any_subject schema.now session.now.index is_unknown) call.now.ssas }
{
    let index = session.index;
    call.ssas
        .as_slice()
        .iter()
        .any(|ssa| has_unknown(schema, index, ssa))
}

// ---- AC

fn is_off_path(schema: &Schema, session: &Session, call: &Call) -> bool
    ensures { result ≡ is_off_path schema.now session.now call.now }
{
    names_no_segment(schema, call.ssas.as_slice())
        || gets_off_path(schema, session, call)
        || inserts_off_path(schema, call)
}

fn gets_off_path(schema: &Schema, session: &Session, call: &Call) -> bool
    ensures { result ≡ (is_get call.now && not (each_next (is_below_type schema.now) (codes_in schema.now call.now.ssas)
        && option_map_or (λ i. list_all (is_in_subtree schema.now i.target) (codes_in schema.now call.now.ssas))
        (index_of schema.now session.now.index) true)) }
{
    is_get(call) && !goes_down(schema, session.index, call.ssas.as_slice())
}

fn inserts_off_path(schema: &Schema, call: &Call) -> bool
    ensures { result ≡ (is_insert call.now && nat_lt 1 (length call.now.ssas)
        && not (option_map_or (λ code. code == 1) (slice_get (codes_in schema.now call.now.ssas) 0) false
        && each_next (is_parent_code schema.now.types) (codes_in schema.now call.now.ssas))) }
{
    inserts_by_path(call) && !leads_down(schema, call.ssas.as_slice())
}

fn inserts_by_path(call: &Call) -> bool
    ensures { result ≡ (is_insert call.now && nat_lt 1 (length call.now.ssas)) }
{
    is_insert(call) && call.ssas.len() > 1
}

fn names_no_segment(schema: &Schema, ssas: &[Ssa]) -> bool
    ensures { result ≡ list_any (λ ssa. is_none (code_named schema.now ssa.seg)) ssas.now }
{
    ssas.iter().any(|ssa| code_named(schema, ssa.seg).is_none())
}

/// A get's types go down, and in a session by an index they are within the target's subtree.
fn goes_down(schema: &Schema, index: Option<u8>, ssas: &[Ssa]) -> bool
    ensures { result ≡ (each_next (is_below_type schema.now) (codes_in schema.now ssas.now)
        && option_map_or (λ i. list_all (is_in_subtree schema.now i.target) (codes_in schema.now ssas.now)) (index_of schema.now index) true) }
{
    is_falling(schema, ssas) && is_within_target(schema, index, ssas)
}

fn is_falling(schema: &Schema, ssas: &[Ssa]) -> bool
    ensures { result ≡ each_next (is_below_type schema.now) (codes_in schema.now ssas.now) }
{
    let mut above = None;
    for ssa in ssas {
        let code = code_named(schema, ssa.seg);
        if !is_under(schema, above, code) {
            return false;
        }
        above = later_of(above, code);
    }
    true
}

fn is_under(schema: &Schema, above: Option<u8>, code: Option<u8>) -> bool
    ensures { result ≡ stand_so (is_below_type schema.now) above code }
{
    match (above, code) {
        (Some(above), Some(code)) => is_below_type(schema, above, code),
        _ => true,
    }
}

fn later_of(above: Option<u8>, code: Option<u8>) -> Option<u8>
    ensures { result ≡ later_of above code }
{
    match code {
        None => above,
        Some(code) => Some(code),
    }
}

fn is_within_target(schema: &Schema, index: Option<u8>, ssas: &[Ssa]) -> bool
    ensures { result ≡ option_map_or (λ i. list_all (is_in_subtree schema.now i.target) (codes_in schema.now ssas.now)) (index_of schema.now index) true }
{
    match index_of(schema, index) {
        None => true,
        Some(index) => are_in_subtree(schema, index.target, ssas),
    }
}

fn are_in_subtree(schema: &Schema, target: u8, ssas: &[Ssa]) -> bool
    ensures { result ≡ list_all (is_in_subtree schema.now target) (codes_in schema.now ssas.now) }
{
    for ssa in ssas {
        let code = code_named(schema, ssa.seg);
        if !is_within(schema, target, code) {
            return false;
        }
    }
    true
}

fn is_within(schema: &Schema, target: u8, code: Option<u8>) -> bool
    ensures { result ≡ option_map_or (is_in_subtree schema.now target) code true }
{
    match code {
        None => true,
        Some(code) => is_in_subtree(schema, target, code),
    }
}

/// An ISRT's path starts at the root and leaves out no level.
fn leads_down(schema: &Schema, ssas: &[Ssa]) -> bool
    ensures { result ≡ (option_map_or (λ code. code == 1) (slice_get (codes_in schema.now ssas.now) 0) false
        && each_next (is_parent_code schema.now.types) (codes_in schema.now ssas.now)) }
{
    begins_at_root(schema, ssas) && leaves_out_none(schema, ssas)
}

fn begins_at_root(schema: &Schema, ssas: &[Ssa]) -> bool
    ensures { result ≡ option_map_or (λ code. code == 1) (slice_get (codes_in schema.now ssas.now) 0) false }
{
    match first_code(schema, ssas) {
        None => false,
        Some(code) => code == 1,
    }
}

fn first_code(schema: &Schema, ssas: &[Ssa]) -> Option<u8>
    ensures { result ≡ slice_get (codes_in schema.now ssas.now) 0 }
{
    for ssa in ssas {
        let code = code_named(schema, ssa.seg);
        if code.is_some() {
            return code;
        }
    }
    None
}

fn leaves_out_none(schema: &Schema, ssas: &[Ssa]) -> bool
    ensures { result ≡ each_next (is_parent_code schema.now.types) (codes_in schema.now ssas.now) }
{
    let mut above = None;
    for ssa in ssas {
        let code = code_named(schema, ssa.seg);
        if !is_next_to(schema, above, code) {
            return false;
        }
        above = later_of(above, code);
    }
    true
}

fn is_next_to(schema: &Schema, above: Option<u8>, code: Option<u8>) -> bool
    ensures { result ≡ stand_so (is_parent_code schema.now.types) above code }
{
    match (above, code) {
        (Some(above), Some(code)) => is_parent_code(schema, above, code),
        _ => true,
    }
}
