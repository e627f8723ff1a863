// How many free blocks a load row may take.
ghost use Rattle.std.specs.Prelude.{◌≡◌, ◌==◌, false, not, map, IfOk};
ghost use Rattle.std.specs.List.{list_any, slice_get};
ghost use Rattle.std.specs.Option.{option_map_or};
ghost use Rattle.hal_loader.specs.Placing.{leaves_blocks, load_need};
ghost use Rattle.hal_schema.specs.Insertion.{new_path};
ghost use Rattle.hal_schema.specs.Row.{row_key};

use crate::path::new_path;
use hal_base::Memory;
use hal_schema::{PartDef, Row, Schema, row_key, schemas_are_kept, select};
use std::alloc::Global;

pub(crate) fn load_need(
    alloc: Global,
    schema: &Schema,
    rows: &[Row],
    new: &Row,
) -> Result<u32, Memory>
    ensures { IfOk result (λ need. need ≡ load_need schema.now rows.now new.now) }
{
    schemas_are_kept();
    let need = 2 + schema.indexes.len() as u32;
    if comes_where_blocks_are_left(alloc, schema, rows, new)? {
        return Ok(need + 1);
    }
    Ok(need)
}

fn comes_where_blocks_are_left(
    alloc: Global,
    schema: &Schema,
    rows: &[Row],
    new: &Row,
) -> Result<bool, Memory>
    ensures { IfOk result (λ left. left ≡ option_map_or (λ root. leaves_blocks schema.now (row_key schema.now.types root)) (slice_get (new_path schema.now.types rows.now new.now) 0) false) }
{
    if !some_leave_blocks(schema.parts.as_slice()) {
        return Ok(false);
    }
    let path = new_path(alloc, schema, rows, new)?;
    Ok(root_leaves_blocks(schema, &path))
}

fn root_leaves_blocks(schema: &Schema, path: &[&Row]) -> bool
    ensures { result ≡ option_map_or (λ root. leaves_blocks schema.now (row_key schema.now.types root)) (slice_get (map (λ r. r.now) path.entry.now) 0) false }
{
    match path.first() {
        None => false,
        Some(root) => leaves_blocks(schema, row_key(schema, root)),
    }
}

/// Whether the partition of a root key leaves blocks empty. DBD: FRSPC.
fn leaves_blocks(schema: &Schema, key: &[u8]) -> bool
    ensures { result ≡ leaves_blocks schema.now key.now }
{
    match select(schema, key) {
        None => false,
        Some(place) => match schema.parts.as_slice().get(place as usize) {
            None => false,
            Some(part) => part.fbff != 0,
        },
    }
}

fn some_leave_blocks(parts: &[PartDef]) -> bool
    ensures { result ≡ list_any (λ part. not (part.fbff == 0)) parts.now }
{
    for part in parts {
        if part.fbff != 0 {
            return true;
        }
    }
    false
}
