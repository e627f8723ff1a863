// Whether the entries of a new row have keys that no other entry has. IMS: status code NI.
ghost use Rattle.std.specs.Prelude.{◌≡◌, ◌+◌, ◌<◌, ◌≤◌, length, IfOk, IfSome, IsErrOf, IsTrue};
ghost use Rattle.std.specs.List.{list_all, slice_get};
ghost use Rattle.std.specs.Option.{ForSome};
ghost use Rattle.call_gets.specs.Scan.{LooksOn};
ghost use Rattle.call_changes.specs.Inserts.{enters_by, new_entry_key};

use crate::entry::entry_key;
use hal_base::{Bytes, Key, Memory};
use hal_schema::{IndexDef, Schema};
use position_state::{Walk, WalkFault};
use std::alloc::Global;

/// Whether in each index the entry of a new row, if it gets one, has a key that no entry has.
pub(crate) fn enters_all<W: Walk>(
    alloc: Global,
    schema: &Schema,
    code: u8,
    keys: &Key,
    content: &Bytes,
    walk: &mut W,
) -> Result<bool, WalkFault>
    requires live { IsTrue (W.seen walk.old).live }
    requires schema { (W.seen walk.old).schema ≡ schema.now }
    ensures enters { IfOk result (λ enters. IfSome (W.seen walk.old).forest (λ rows.
        enters ≡ list_all (enters_by schema.now.types rows code keys.now content.now) schema.now.indexes)) }
    ensures few { (W.seen walk.new).looks ≤ (W.seen walk.old).looks + length schema.now.indexes }
    ensures looked { LooksOn (IsErrOf result WalkFault.Failed) (W.seen walk.old) (W.seen walk.new) }
{
    let count = schema.indexes.len() as u8;
    for place in 0..count {
        if !enters_freely(alloc, schema, place, code, keys, content, walk)? {
            return Ok(false);
        }
    }
    Ok(true)
}

fn enters_freely<W: Walk>(
    alloc: Global,
    schema: &Schema,
    place: u8,
    code: u8,
    keys: &Key,
    content: &Bytes,
    walk: &mut W,
) -> Result<bool, WalkFault>
    requires live { IsTrue (W.seen walk.old).live }
    requires schema { (W.seen walk.old).schema ≡ schema.now }
    requires within { place < length schema.now.indexes }
    ensures enters { IfOk result (λ enters. IfSome (W.seen walk.old).forest (λ rows.
        ForSome (slice_get schema.now.indexes place) (λ index. enters ≡ enters_by schema.now.types rows code keys.now content.now index))) }
    ensures few { (W.seen walk.new).looks ≤ (W.seen walk.old).looks + 1 }
    ensures looked { LooksOn (IsErrOf result WalkFault.Failed) (W.seen walk.old) (W.seen walk.new) }
{
    let index = &schema.indexes.as_slice()[place as usize];
    match new_key(alloc, index, code, keys, content)? {
        None => Ok(true),
        Some(key) => Ok(walk.taken(place, key.as_slice())?.is_none()),
    }
}

/// The key of a new row's entry in an index, none where it gets none.
fn new_key(
    alloc: Global,
    index: &IndexDef,
    code: u8,
    keys: &Key,
    content: &Bytes,
) -> Result<Option<Key>, Memory>
    ensures { IfOk result (λ key. key ≡ new_entry_key index.now code keys.now content.now) }
{
    if code != index.source {
        return Ok(None);
    }
    Ok(Some(entry_key(alloc, index, content, keys)?))
}
