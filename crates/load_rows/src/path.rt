// The path of a row, carried along the list: what of the path so far is of a higher level, and the row itself.
ghost use Rattle.std.specs.Prelude.{◌≡◌, [], ◌++◌, map, find, OnOk, IfOk};
ghost use Rattle.std.specs.Option.{option_map_or};
ghost use Rattle.hal_schema.specs.Insertion.{new_path};
ghost use Rattle.hal_schema.specs.Paths.{concatenated_key, path_with, paths_of};
ghost use Rattle.hal_schema.specs.Row.{is_parent, row_level};

use crate::segment::is_parent;
use hal_base::{Key, Memory};
use hal_schema::{Row, Schema, level_of, row_key};
use std::alloc::Global;

pub(crate) fn go_on<'a>(
    schema: &Schema,
    path: &mut Vec<&'a Row>,
    row: &'a Row,
) -> Result<(), Memory>
    ensures { OnOk result (map (λ r. r.now) path.new.items ≡ path_with (row_level schema.now.types) (map (λ r. r.now) path.old.items) row.now) }
{
    let level = level_of(schema, row.code);
    path.retain(|above| level_of(schema, above.code) < level);
    path.push(row)?;
    Ok(())
}

/// The path of a new row: that of its parent, and itself.
pub(crate) fn new_path<'a>(
    alloc: Global,
    schema: &Schema,
    rows: &'a [Row],
    new: &'a Row,
) -> Result<Vec<&'a Row>, Memory>
    ensures { IfOk result (λ path. map (λ r. r.now) path.items ≡ new_path schema.now.types rows.now new.now) }
{
    let mut path = path_above(alloc, schema, rows, new)?;
    path.push(new)?;
    Ok(path)
}

fn path_above<'a>(
    alloc: Global,
    schema: &Schema,
    rows: &'a [Row],
    new: &Row,
) -> Result<Vec<&'a Row>, Memory>
    ensures { IfOk result (λ path. map (λ r. r.now) path.items ≡ option_map_or (λ p. p.0) (find (λ p. is_parent p.1 new.now) (paths_of schema.now.types rows.now)) []) }
{
    if new.parent.is_none() {
        return Ok(Vec::new(alloc));
    }
    path_of_parent(alloc, schema, rows, new)
}

fn path_of_parent<'a>(
    alloc: Global,
    schema: &Schema,
    rows: &'a [Row],
    new: &Row,
) -> Result<Vec<&'a Row>, Memory>
    ensures { IfOk result (λ path. map (λ r. r.now) path.items ≡ option_map_or (λ p. p.0) (find (λ p. is_parent p.1 new.now) (paths_of schema.now.types rows.now)) []) }
{
    let mut path = Vec::new(alloc);
    for row in rows {
        go_on(schema, &mut path, row)?;
        if is_parent(row, new) {
            return Ok(path);
        }
    }
    Ok(Vec::new(alloc))
}

/// Adds the sequence fields along a path.
pub(crate) fn append_keys(key: &mut Key, schema: &Schema, path: &[&Row]) -> Result<(), Memory>
    ensures { OnOk result (key.new ≡ key.old ++ concatenated_key schema.now.types (map (λ r. r.now) path.entry.now)) }
{
    for row in path {
        key.append(row_key(schema, row))?;
    }
    Ok(())
}
