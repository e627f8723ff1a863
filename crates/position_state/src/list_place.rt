// Where a new row goes in a list of rows, found from its end.
ghost use Rattle.std.specs.Prelude.{◌≡◌, ◌≤◌, nat_lt, length};
ghost use Rattle.std.specs.List.{prefix_len};
ghost use Rattle.hal_schema.specs.Insertion.{insertion_place, stands_before, through_last};
ghost use Rattle.hal_schema.specs.Row.{row_level};

use crate::twins::stands_before;
use hal_schema::{Row, Schema, level_of};

pub(crate) fn insertion_place(schema: &Schema, rows: &[Row], new: &Row) -> usize
    ensures place { result ≡ insertion_place schema.now rows.now new.now }
    ensures within { result ≤ length rows.now }
{
    let after = through_last(schema, rows, new);
    after + count_deeper(schema, &rows[after..], new)
}

/// How many rows there are up to the last one that must stand before a new row.
fn through_last(schema: &Schema, rows: &[Row], new: &Row) -> usize
    ensures through { result ≡ through_last (stands_before schema.now new.now) rows.now }
    ensures within { result ≤ length rows.now }
{
    let mut after = rows.len();
    'rows: while after > 0 {
        if stands_before(schema, &rows[after - 1], new) {
            return after;
        }
        after -= 1;
    }
    0
}

/// How many rows, from the first on, are deeper than a new one.
fn count_deeper(schema: &Schema, rows: &[Row], new: &Row) -> usize
    ensures within { result ≤ length rows.now }
    ensures count { result ≡ prefix_len (λ row. nat_lt (row_level schema.now.types new.now) (row_level schema.now.types row)) rows.now }
{
    let level = level_of(schema, new.code);
    for (place, row) in rows.iter().enumerate() {
        if level_of(schema, row.code) <= level {
            return place;
        }
    }
    rows.len()
}
