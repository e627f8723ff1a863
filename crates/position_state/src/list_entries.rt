// The entries of a secondary index over a list of rows in memory.
ghost use Rattle.std.specs.Prelude.{◌≡◌, ◌≤◌, ◌==◌, [], ◌∷◌, ◌++◌, length, map, find, flat_map, insert, IfOk, OnOk, Some};
ghost use Rattle.std.specs.Option.{option_copied, option_map};
ghost use Rattle.std.specs.Str.{bytes_eq};
ghost use Rattle.std.specs.Ordering.{is_le};
ghost use Rattle.hal_schema.specs.Entry.{entries_by_row, entries_of, entry_key, with_entry};
ghost use Rattle.hal_schema.specs.Keys.{key_cmp};
ghost use Rattle.hal_schema.specs.Paths.{concatenated_key, paths_of};
ghost use Rattle.hal_schema.specs.SegType.{portion};
ghost use Rattle.position_state.specs.Entries.{entry_seen};
ghost use Rattle.position_state.specs.Looks.{taken_by};

use crate::path::{append_keys, go_on, root_key};
use hal_base::{Bytes, Ilk, Key, List, Memory};
use hal_schema::{Field, IndexDef, Row, Schema, portion};
use std::alloc::Global;

/// An entry: its key, the name of its target, and the key of the root above.
#[derive(Debug, Drop)]
pub(crate) struct IndexEntry {
    pub(crate) key: Key,
    pub(crate) target: Ilk,
    pub(crate) root: Key,
}

/// The entries of an index, in the order of their keys.
pub(crate) fn entries_of(
    alloc: Global,
    schema: &Schema,
    index: &IndexDef,
    rows: &[Row],
) -> Result<List<IndexEntry>, Memory>
    ensures { IfOk result (λ entries. map entry_seen entries ≡ entries_of schema.now.types index.now rows.now) }
{
    let mut left = entries_by_row(alloc, schema, index, rows)?;
    let mut entries = List::new(alloc);
    while let Some(entry) = left.pop() {
        entries.insert(place_of(entries.as_slice(), &entry.key), entry)?;
    }
    Ok(entries)
}

/// The target of the entry of an index with a key; none where there is no such index.
pub(crate) fn taken_by(
    alloc: Global,
    schema: &Schema,
    index: u8,
    rows: &[Row],
    key: &[u8],
) -> Result<Option<Ilk>, Memory>
    ensures { IfOk result (λ name. name ≡ taken_by schema.now index key.now rows.now) }
{
    match schema.indexes.as_slice().get(index as usize) {
        None => Ok(None),
        Some(index) => target_by(alloc, schema, index, rows, key),
    }
}

fn target_by(
    alloc: Global,
    schema: &Schema,
    index: &IndexDef,
    rows: &[Row],
    key: &[u8],
) -> Result<Option<Ilk>, Memory>
    ensures { IfOk result (λ name. name ≡ option_map (λ e. e.target) (find (λ e. bytes_eq e.key key.now) (entries_of schema.now.types index.now rows.now))) }
{
    let entries = entries_of(alloc, schema, index, rows)?;
    Ok(target_of(entries.as_slice(), key))
}

fn target_of(entries: &[IndexEntry], key: &[u8]) -> Option<Ilk>
    ensures { result ≡ option_map (λ e. e.target) (find (λ e. bytes_eq e.key key.now) (map entry_seen entries.now)) }
{
    for entry in entries {
        if entry.key.as_slice() == key {
            return Some(entry.target);
        }
    }
    None
}

/// Before the first entry whose key isn't lower.
fn place_of(entries: &[IndexEntry], key: &Key) -> usize
    ensures within { result ≤ length entries.now }
    ensures place { (entry : _) → entry.key ≡ key.now → with_entry entry (map entry_seen entries.now) ≡ insert (map entry_seen entries.now) result entry }
{
    for (place, entry) in entries.iter().enumerate() {
        if is_up_to(key, &entry.key) {
            return place;
        }
    }
    entries.len()
}

fn is_up_to(key: &Key, other: &Key) -> bool
    ensures { result ≡ is_le (key_cmp key.now other.now) }
{
    key.as_slice().cmp(other.as_slice()).is_le()
}

/// The entries in the order of their rows.
fn entries_by_row(
    alloc: Global,
    schema: &Schema,
    index: &IndexDef,
    rows: &[Row],
) -> Result<Vec<IndexEntry>, Memory>
    ensures { IfOk result (λ entries. map entry_seen entries.items ≡ entries_by_row schema.now.types index.now (paths_of schema.now.types rows.now)) }
{
    let mut entries = Vec::new(alloc);
    let mut path = Vec::new(alloc);
    for row in rows {
        go_on(schema, &mut path, row)?;
        push_entry(alloc, schema, index, &path, row, &mut entries)?;
    }
    Ok(entries)
}

/// Adds the entry of a row with this path, if it has one.
fn push_entry(
    alloc: Global,
    schema: &Schema,
    index: &IndexDef,
    path: &[&Row],
    row: &Row,
    entries: &mut Vec<IndexEntry>,
) -> Result<(), Memory>
    ensures { OnOk result (map entry_seen entries.new.items ≡ map entry_seen entries.old.items ++ entries_by_row schema.now.types index.now ((map (λ r. r.now) path.entry.now, row.now) ∷ [])) }
{
    if row.code != index.source {
        return Ok(());
    }
    match row_of(path, index.target) {
        None => Ok(()),
        Some(target) => {
            let key = entry_key(alloc, schema, index, path, row)?;
            let root = root_key(alloc, schema, path)?;
            entries.push(IndexEntry {
                key,
                target: target.name,
                root,
            })?;
            Ok(())
        }
    }
}

/// The row of a type on a path.
fn row_of<'a>(path: &[&'a Row], code: u8) -> Option<&'a Row>
    ensures { option_copied result ≡ find (λ row. row.code == code) (map (λ r. r.now) path.entry.now) }
{
    for row in path {
        if row.code == code {
            return Some(*row);
        }
    }
    None
}

fn entry_key(
    alloc: Global,
    schema: &Schema,
    index: &IndexDef,
    path: &[&Row],
    row: &Row,
) -> Result<Key, Memory>
    ensures { IfOk result (λ key. entry_key index.now row.now.content (concatenated_key schema.now.types (map (λ r. r.now) path.entry.now)) ≡ Some key) }
{
    let mut keys = Bytes::new(alloc);
    append_keys(&mut keys, schema, path)?;
    let mut key = Bytes::new(alloc);
    append_portions(&mut key, index.search.as_slice(), row.content.as_slice())?;
    append_portions(&mut key, index.subseq.as_slice(), keys.as_slice())?;
    Ok(key)
}

fn append_portions(key: &mut Key, fields: &[Field], content: &[u8]) -> Result<(), Memory>
    ensures { OnOk result (key.new ≡ key.old ++ flat_map (λ f. portion f.start f.bytes content.now) fields.now) }
{
    for field in fields {
        key.append(portion(content, field.start, field.bytes))?;
    }
    Ok(())
}
