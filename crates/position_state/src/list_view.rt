// The views of a list of rows in memory by secondary indexes, made whole.
ghost use Rattle.std.specs.Prelude.{◌≡◌, ◌≤◌, ◌++◌, length, map, take, drop, flat_map, OnOk, IfOk, Some};
ghost use Rattle.std.specs.List.{prefix_len};
ghost use Rattle.hal_schema.specs.SegType.{search_bytes};
ghost use Rattle.hal_schema.specs.Entry.{entries_of};
ghost use Rattle.hal_schema.specs.Span.{is_deeper, span_of};
ghost use Rattle.position_state.specs.View.{entry_element, entry_view, view_of};
ghost use Rattle.position_state.specs.Entries.{entry_seen};

use crate::elements::is_same_name;
use crate::list_entries::{IndexEntry, entries_of};
use crate::path::{append_keys, go_on};
use crate::{Anchor, Spot};
use hal_base::{Bytes, Ilk, Key, List, Memory};
use hal_schema::{IndexDef, Row, Schema, level_of};
use std::alloc::Global;

/// The elements of the view by an index, in order.
pub(crate) fn view_of(
    alloc: Global,
    schema: &Schema,
    index: u8,
    rows: &[Row],
) -> Result<List<Spot>, Memory>
    ensures { IfOk result (λ view. view ≡ view_of schema.now (Some index) rows.now) }
{
    match schema.indexes.as_slice().get(index as usize) {
        None => Ok(List::new(alloc)),
        Some(index) => index_view(alloc, schema, index, rows),
    }
}

fn index_view(
    alloc: Global,
    schema: &Schema,
    index: &IndexDef,
    rows: &[Row],
) -> Result<List<Spot>, Memory>
    ensures { IfOk result (λ view. view ≡ flat_map (entry_view schema.now.types index.now rows.now) (entries_of schema.now.types index.now rows.now)) }
{
    let entries = entries_of(alloc, schema, index, rows)?;
    let mut view = List::new(alloc);
    let shown = entries.as_slice();
    for entry in shown {
        append_entry_view(alloc, schema, index, rows, entry, &mut view)?;
    }
    Ok(view)
}

/// Adds what an entry shows: its target and what is below it.
fn append_entry_view(
    alloc: Global,
    schema: &Schema,
    index: &IndexDef,
    rows: &[Row],
    entry: &IndexEntry,
    view: &mut List<Spot>,
) -> Result<(), Memory>
    ensures { OnOk result (view.new ≡ view.old ++ entry_view schema.now.types index.now rows.now (entry_seen entry.now)) }
{
    let mut path = Vec::new(alloc);
    let span = span_of(schema, rows, &entry.target);
    for row in span {
        go_on(schema, &mut path, row)?;
        view.push(entry_element(alloc, schema, index, entry, &path, row)?)?;
    }
    Ok(())
}

fn entry_element(
    alloc: Global,
    schema: &Schema,
    index: &IndexDef,
    entry: &IndexEntry,
    path: &[&Row],
    row: &Row,
) -> Result<Spot, Memory>
    ensures { IfOk result (λ spot. spot ≡ entry_element schema.now.types index.now (entry_seen entry.now) (map (λ r. r.now) path.entry.now) row.now) }
{
    let mut key = Bytes::from_slice(alloc, search_part(index, entry.key.as_slice()))?;
    append_keys(&mut key, schema, behind_first(path))?;
    Ok(Spot {
        at: Anchor::At {
            name: row.name,
            root: entry.root.copy()?,
            entry: Some(entry.key.copy()?),
        },
        code: row.code,
        level: level_of(schema, row.code),
        key,
        content: row.content.copy()?,
    })
}

fn behind_first<'a, 'b>(path: &'b [&'a Row]) -> &'b [&'a Row]
    ensures { map (λ r. r.now) result.now ≡ drop 1 (map (λ r. r.now) path.entry.now) }
{
    &path[path.len().min(1)..]
}

/// The search fields, with which the key of an entry begins.
fn search_part<'a>(index: &IndexDef, key: &'a [u8]) -> &'a [u8]
    ensures { result.now ≡ take (search_bytes index.now) key.now }
{
    let fields = index.search.as_slice();
    let mut bytes = 0;
    for field in fields {
        bytes = (bytes + field.bytes as usize).min(key.len());
    }
    &key[..bytes]
}

/// The row of a name and the rows below it.
fn span_of<'a>(schema: &Schema, rows: &'a [Row], name: &Ilk) -> &'a [Row]
    ensures { result.now ≡ span_of schema.now.types rows.now name.now }
{
    for (place, row) in rows.iter().enumerate() {
        if is_same_name(&row.name, name) {
            let below = count_below(schema, row, &rows[place + 1..]);
            return &rows[place..place + 1 + below];
        }
    }
    &[]
}

/// How many of the rows that follow a row are below it.
pub(crate) fn count_below(schema: &Schema, above: &Row, rows: &[Row]) -> usize
    ensures within { result ≤ length rows.now }
    ensures count { result ≡ prefix_len (is_deeper schema.now.types above.now) rows.now }
{
    let level = level_of(schema, above.code);
    for (place, row) in rows.iter().enumerate() {
        if level_of(schema, row.code) <= level {
            return place;
        }
    }
    rows.len()
}
