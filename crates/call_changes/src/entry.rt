// The keys of the entries of an index. IMS: the keys of index pointer segments.
ghost use Rattle.std.specs.Prelude.{◌≡◌, ◌++◌, flat_map, IfOk, OnOk, Some};
ghost use Rattle.hal_schema.specs.Entry.{entry_key};
ghost use Rattle.hal_schema.specs.SegType.{portion};
ghost use Rattle.call_changes.specs.Moves.{moved_key};

use hal_base::{Bytes, Key, Memory};
use hal_schema::{Field, IndexDef, portion};
use position_state::Spot;
use std::alloc::Global;

/// The new key of a row's entry in an index, where this content gives it another one.
pub(crate) fn moved_key(
    alloc: Global,
    index: &IndexDef,
    row: &Spot,
    content: &Bytes,
) -> Result<Option<Key>, Memory>
    ensures { IfOk result (λ key. key ≡ moved_key index.now row.now content.now) }
{
    if row.code != index.source {
        return Ok(None);
    }
    let key = entry_key(alloc, index, content, &row.key)?;
    if key == entry_key(alloc, index, &row.content, &row.key)? {
        return Ok(None);
    }
    Ok(Some(key))
}

/// The key of the entry of a row with this content and this concatenated key.
pub(crate) fn entry_key(
    alloc: Global,
    index: &IndexDef,
    content: &Bytes,
    keys: &Key,
) -> Result<Key, Memory>
    ensures { IfOk result (λ key. entry_key index.now content.now keys.now ≡ Some key) }
{
    let mut key = Bytes::new(alloc);
    append_portions(&mut key, index.search.as_slice(), content.as_slice())?;
    append_portions(&mut key, index.subseq.as_slice(), keys.as_slice())?;
    Ok(key)
}

fn append_portions(key: &mut Key, fields: &[Field], content: &[u8]) -> Result<(), Memory>
    ensures { OnOk result (key.new ≡ key.old ++ flat_map (λ f. portion f.start f.bytes content.now) fields.now) }
{
    for field in fields {
        key.append(portion(content, field.start, field.bytes))?;
    }
    Ok(())
}
