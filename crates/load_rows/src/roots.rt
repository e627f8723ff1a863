// Whether a root has a key.
ghost use Rattle.std.specs.Prelude.{◌≡◌, ◌==◌, ◌&&◌, None};
ghost use Rattle.std.specs.Str.{bytes_eq};
ghost use Rattle.hal_loader.specs.Taker.{has_root};
ghost use Rattle.hal_schema.specs.Row.{row_key, same_parent};

use hal_schema::{Row, Schema, row_key};

pub(crate) fn has_root(schema: &Schema, rows: &[Row], key: &[u8]) -> bool
    ensures { result ≡ has_root schema.now.types rows.now key.now }
{
    for row in rows {
        if is_root_of(schema, row, key) {
            return true;
        }
    }
    false
}

fn is_root_of(schema: &Schema, row: &Row, key: &[u8]) -> bool
    ensures { result ≡ ((row.now.code == 1 && same_parent row.now.parent None) && bytes_eq (row_key schema.now.types row.now) key.now) }
{
    row.code == 1 && row.parent.is_none() && row_key(schema, row) == key
}
