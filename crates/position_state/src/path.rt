// The path of a row, carried along a list: what of the path so far is of a higher level, and the row itself.
ghost use Rattle.std.specs.Prelude.{◌≡◌, ◌==◌, ◌++◌, map, drop, find, OnOk, IfOk};
ghost use Rattle.std.specs.List.{slice_get};
ghost use Rattle.std.specs.Option.{option_copied};
ghost use Rattle.hal_schema.specs.Paths.{concatenated_key, path_with};
ghost use Rattle.hal_schema.specs.Row.{row_level};
ghost use Rattle.position_state.specs.View.{root_key_of};

use hal_base::{Bytes, Key, Memory};
use hal_schema::{Row, Schema, level_of, row_key};
use std::alloc::Global;

pub(crate) fn go_on<'a>(
    schema: &Schema,
    path: &mut Vec<&'a Row>,
    row: &'a Row,
) -> Result<(), Memory>
    ensures { OnOk result (map (λ r. r.now) path.new.items ≡ path_with (row_level schema.now.types) (map (λ r. r.now) path.old.items) row.now) }
{
    let level = level_of(schema, row.code);
    path.retain(|above| level_of(schema, above.code) < level);
    path.push(row)?;
    Ok(())
}

pub(crate) fn root_key(alloc: Global, schema: &Schema, path: &[&Row]) -> Result<Key, Memory>
    ensures { IfOk result (λ key. key ≡ root_key_of schema.now.types (map (λ r. r.now) path.entry.now)) }
{
    match path.first() {
        None => Ok(Bytes::new(alloc)),
        Some(root) => Bytes::from_slice(alloc, row_key(schema, root)),
    }
}

/// Adds the sequence fields along a path.
pub(crate) fn append_keys(key: &mut Key, schema: &Schema, path: &[&Row]) -> Result<(), Memory>
    ensures { OnOk result (key.new ≡ key.old ++ concatenated_key schema.now.types (map (λ r. r.now) path.entry.now)) }
{
    for row in path {
        key.append(row_key(schema, row))?;
    }
    Ok(())
}
