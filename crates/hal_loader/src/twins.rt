// What the newest sibling tells of a row.
ghost use Rattle.std.specs.Prelude.{◌≡◌, ◌==◌, ◌&&◌, not, None, is_none, is_some};
ghost use Rattle.hal_schema.specs.Forest.{has_unique_key};
ghost use Rattle.hal_schema.specs.SegType.{parent_code};
ghost use Rattle.hal_loader.specs.Carrying.{is_above_key, has_same_key};
ghost use Rattle.hal_loader.specs.Judging.{level_refusals};
ghost use Rattle.hal_loader.specs.Refusals.{first_that_holds};

use crate::path::{Level, has_same_key, is_above_key, is_of_later_type};
use hal_base::{Ilk, Key};
use hal_schema::{Schema, type_of};

/// The first of the refusals that the newest sibling tells of.
pub(crate) fn level_refusal(
    schema: &Schema,
    code: u8,
    parent: Option<Ilk>,
    key: &Key,
    below: &Option<Level>,
) -> Option<[u8; 2]>
    ensures { result ≡ first_that_holds (level_refusals schema.now code parent key.now below.now) }
{
    if has_lost_parent(schema, code, parent) {
        return Some(*b"LD");
    }
    if is_of_later_type(below, code) {
        return Some(*b"LE");
    }
    if is_under_twin(schema, code, key, below) {
        return Some(*b"LC");
    }
    if is_twins_key(schema, code, key, below) {
        return Some(*b"LB");
    }
    None
}

/// Whether a row of this type wants a parent and has none.
fn has_lost_parent(schema: &Schema, code: u8, parent: Option<Ilk>) -> bool
    ensures { result ≡ (is_some (parent_code schema.now.types code) && is_none parent) }
{
    match type_of(schema, code) {
        Some(t) => t.parent.is_some() && parent.is_none(),
        None => false,
    }
}

/// Whether a row stands among its twins by its key, whatever comes before it: a root of PHDAM.
fn goes_by_key(schema: &Schema, code: u8) -> bool
    ensures { result ≡ (schema.now.phdam && code == 1) }
{
    schema.phdam && code == 1
}

/// Whether the key is below that of the last twin.
fn is_under_twin(schema: &Schema, code: u8, key: &Key, below: &Option<Level>) -> bool
    ensures { result ≡ (not (schema.now.phdam && code == 1) && is_above_key below.now code key.now) }
{
    !goes_by_key(schema, code) && is_above_key(below, code, key)
}

/// Whether the last twin has this key, which is to be unique.
fn is_twins_key(schema: &Schema, code: u8, key: &Key, below: &Option<Level>) -> bool
    ensures { result ≡ (not (schema.now.phdam && code == 1) && (has_unique_key schema.now.types code && has_same_key below.now code key.now)) }
{
    !goes_by_key(schema, code) && is_unique_key(schema, code, key, below)
}

fn is_unique_key(schema: &Schema, code: u8, key: &Key, below: &Option<Level>) -> bool
    ensures { result ≡ (has_unique_key schema.now.types code && has_same_key below.now code key.now) }
{
    has_unique_key(schema, code) && has_same_key(below, code, key)
}

fn has_unique_key(schema: &Schema, code: u8) -> bool
    ensures { result ≡ has_unique_key schema.now.types code }
{
    match type_of(schema, code) {
        None => false,
        Some(t) => match t.key {
            None => false,
            Some(key) => key.unique,
        },
    }
}
