// Whether the entries of a new row are free: each time from all rows.
ghost use Rattle.std.specs.Prelude.{◌≡◌, ◌==◌, [], ◌∷◌, ◌++◌, map, flat_map, IfOk, OnOk, Some};
ghost use Rattle.std.specs.List.{list_all, list_any};
ghost use Rattle.std.specs.Str.{bytes_eq};
ghost use Rattle.hal_schema.specs.Entry.{entries_by_row, entries_of, entry_key, is_taken};
ghost use Rattle.hal_schema.specs.Insertion.{enters_freely};
ghost use Rattle.hal_schema.specs.Paths.{concatenated_key};
ghost use Rattle.hal_schema.specs.SegType.{portion};

use crate::path::{append_keys, go_on, new_path};
use hal_base::{Bytes, Key, Memory};
use hal_schema::{Field, IndexDef, Row, Schema, portion};
use std::alloc::Global;

/// Whether no index has the key of an entry of a new row.
pub(crate) fn enter_freely(
    alloc: Global,
    schema: &Schema,
    rows: &[Row],
    new: &Row,
) -> Result<bool, Memory>
    ensures { IfOk result (λ free. free ≡ list_all (enters_freely schema.now.types rows.now new.now) schema.now.indexes) }
{
    for index in schema.indexes.as_slice() {
        if !enters_freely(alloc, schema, rows, new, index)? {
            return Ok(false);
        }
    }
    Ok(true)
}

fn enters_freely(
    alloc: Global,
    schema: &Schema,
    rows: &[Row],
    new: &Row,
    index: &IndexDef,
) -> Result<bool, Memory>
    ensures { IfOk result (λ free. free ≡ enters_freely schema.now.types rows.now new.now index.now) }
{
    if new.code != index.source {
        return Ok(true);
    }
    let path = new_path(alloc, schema, rows, new)?;
    let key = entry_key(alloc, schema, index, &path, new)?;
    Ok(!is_taken(alloc, schema, rows, index, &key)?)
}

/// Whether an index has a key.
fn is_taken(
    alloc: Global,
    schema: &Schema,
    rows: &[Row],
    index: &IndexDef,
    key: &Key,
) -> Result<bool, Memory>
    ensures { IfOk result (λ taken. taken ≡ is_taken key.now (entries_of schema.now.types index.now rows.now)) }
{
    let mut path = Vec::new(alloc);
    for row in rows {
        go_on(schema, &mut path, row)?;
        if has_key(alloc, schema, index, &path, row, key)? {
            return Ok(true);
        }
    }
    Ok(false)
}

/// Whether a row with this path has an entry with a key.
fn has_key(
    alloc: Global,
    schema: &Schema,
    index: &IndexDef,
    path: &[&Row],
    row: &Row,
    key: &Key,
) -> Result<bool, Memory>
    ensures { IfOk result (λ has. has ≡ list_any (λ e. bytes_eq key.now e.key) (entries_by_row schema.now.types index.now ((map (λ r. r.now) path.entry.now, row.now) ∷ []))) }
{
    if row.code != index.source || !has_code(path, index.target) {
        return Ok(false);
    }
    Ok(*key == entry_key(alloc, schema, index, path, row)?)
}

fn has_code(path: &[&Row], code: u8) -> bool
    ensures { result ≡ list_any (λ row. row.code == code) (map (λ r. r.now) path.entry.now) }
{
    for row in path {
        if row.code == code {
            return true;
        }
    }
    false
}

fn entry_key(
    alloc: Global,
    schema: &Schema,
    index: &IndexDef,
    path: &[&Row],
    row: &Row,
) -> Result<Key, Memory>
    ensures { IfOk result (λ key. entry_key index.now row.now.content (concatenated_key schema.now.types (map (λ r. r.now) path.entry.now)) ≡ Some key) }
{
    let mut keys = Bytes::new(alloc);
    append_keys(&mut keys, schema, path)?;
    let mut key = Bytes::new(alloc);
    append_portions(&mut key, index.search.as_slice(), row.content.as_slice())?;
    append_portions(&mut key, index.subseq.as_slice(), keys.as_slice())?;
    Ok(key)
}

fn append_portions(key: &mut Key, fields: &[Field], content: &[u8]) -> Result<(), Memory>
    ensures { OnOk result (key.new ≡ key.old ++ flat_map (λ f. portion f.start f.bytes content.now) fields.now) }
{
    for field in fields {
        key.append(portion(content, field.start, field.bytes))?;
    }
    Ok(())
}
