ghost use Rattle.std.specs.Prelude.{◌≡◌, ◌<◌, ◌≤◌, ◌++◌, ◌==◌, IfSome, IsTrue, OnOk, if◌then◌else◌, is_none, is_some, length};
ghost use Rattle.hal_schema.specs.Lawful.{parents_are_before};
ghost use Rattle.hal_schema.specs.Raw.{code_of, types_of};
ghost use Rattle.hal_schema.specs.Rules.{is_unknown_parent, misplaced_roots, unknown_parents};
ghost use Rattle.hal_schema.specs.SegType.{level_of, parent_code};

use crate::fault::{note, statement};
use crate::{Place, RawType};
use hal_base::{List, Memory, Name8};

/// A parent isn't a segment defined before.
pub(crate) fn unknown_parents(places: &mut List<Place>, types: &[RawType]) -> Result<(), Memory>
    ensures { OnOk result (places.new ≡ places.old ++ unknown_parents types.now) }
{
    for (i, t) in types.iter().enumerate() {
        note(
            places,
            is_unknown_parent(types, i + 1, t.parent),
            statement(t.line),
        )?;
    }
    Ok(())
}

/// The first segment has a parent, or a later one has none.
pub(crate) fn misplaced_roots(places: &mut List<Place>, types: &[RawType]) -> Result<(), Memory>
    ensures { OnOk result (places.new ≡ places.old ++ misplaced_roots types.now) }
{
    for (i, t) in types.iter().enumerate() {
        note(places, is_misplaced(i + 1, t.parent), statement(t.line))?;
    }
    Ok(())
}

fn is_misplaced(code: usize, parent: Option<Name8>) -> bool
    ensures { result ≡ (if code == 1 then is_some parent else is_none parent) }
{
    if code == 1 {
        parent.is_some()
    } else {
        parent.is_none()
    }
}

fn is_unknown_parent(types: &[RawType], code: usize, parent: Option<Name8>) -> bool
    ensures { result ≡ is_unknown_parent types.now code parent }
{
    match parent {
        None => false,
        Some(name) => match code_of(types, name) {
            None => true,
            Some(known) => known >= code,
        },
    }
}

/// The code of the first type of a name.
pub(crate) fn code_of(types: &[RawType], name: Name8) -> Option<usize>
    ensures code { result ≡ code_of types.now name }
    ensures known { IfSome result (λ code. code ≤ length types.now) }
{
    for (place, t) in types.iter().enumerate() {
        if t.name == name {
            return Some(place + 1);
        }
    }
    None
}

/// The code of a type's parent.
fn parent_code(types: &[RawType], code: usize) -> Option<usize>
    requires above { 0 < code }
    requires known { code ≤ length types.now }
    ensures { result ≡ parent_code (types_of types.now) code }
{
    match types[code - 1].parent {
        None => None,
        Some(name) => code_of(types, name),
    }
}

/// How far a type is below the root type.
pub(crate) fn level_in(types: &[RawType], code: usize) -> usize
    requires above { 0 < code }
    requires known { code ≤ length types.now }
    requires parents { IsTrue (parents_are_before (types_of types.now)) }
    ensures { result ≡ level_of (types_of types.now) code }
{
    let mut level = 1;
    let mut at = code;
    while let Some(parent) = parent_code(types, at) {
        level += 1;
        at = parent;
    }
    level
}
