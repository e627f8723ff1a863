// Where a load row goes, found from the end of the list.
ghost use Rattle.std.specs.Prelude.{◌≡◌, ◌≤◌, ◌&&◌, ◌||◌, not, nat_lt, length};
ghost use Rattle.std.specs.List.{prefix_len};
ghost use Rattle.std.specs.Ordering.{is_lt};
ghost use Rattle.hal_loader.specs.Placing.{goes_by_key, load_place, loads_behind};
ghost use Rattle.hal_schema.specs.Forest.{twin_cmp};
ghost use Rattle.hal_schema.specs.Insertion.{is_lower_child, through_last};
ghost use Rattle.hal_schema.specs.Row.{are_twins, row_level};

use crate::segment::{are_twins, is_parent, is_same_parent};
use hal_schema::{Row, Schema, level_of, root_cmp, row_key};

pub(crate) fn load_place(schema: &Schema, rows: &[Row], new: &Row) -> usize
    ensures place { result ≡ load_place schema.now rows.now new.now }
    ensures within { result ≤ length rows.now }
{
    let after = through_last(schema, rows, new);
    after + count_deeper(schema, &rows[after..], new)
}

/// How many rows there are up to the last one that a new row goes behind.
fn through_last(schema: &Schema, rows: &[Row], new: &Row) -> usize
    ensures through { result ≡ through_last (loads_behind schema.now new.now) rows.now }
    ensures within { result ≤ length rows.now }
{
    let mut after = rows.len();
    'rows: while after > 0 {
        if loads_behind(schema, &rows[after - 1], new) {
            return after;
        }
        after -= 1;
    }
    0
}

/// How many rows, from the first on, are deeper than a new one.
fn count_deeper(schema: &Schema, rows: &[Row], new: &Row) -> usize
    ensures within { result ≤ length rows.now }
    ensures count { result ≡ prefix_len (λ row. nat_lt (row_level schema.now.types new.now) (row_level schema.now.types row)) rows.now }
{
    let level = level_of(schema, new.code);
    for (place, row) in rows.iter().enumerate() {
        if level_of(schema, row.code) <= level {
            return place;
        }
    }
    rows.len()
}

/// Whether a new row goes behind a row: its parent, a child of that parent of lower code, or a twin.
fn loads_behind(schema: &Schema, row: &Row, new: &Row) -> bool
    ensures { result ≡ loads_behind schema.now new.now row.now }
{
    is_parent(row, new) || is_lower_child(row, new) || is_twin_before(schema, row, new)
}

fn is_lower_child(row: &Row, new: &Row) -> bool
    ensures { result ≡ is_lower_child new.now row.now }
{
    is_same_parent(&row.parent, &new.parent) && row.code < new.code
}

fn is_twin_before(schema: &Schema, row: &Row, new: &Row) -> bool
    ensures { result ≡ (are_twins row.now new.now && (not (goes_by_key schema.now new.now) || is_lt (twin_cmp schema.now row.now new.now))) }
{
    are_twins(row, new) && (!goes_by_key(schema, new) || is_below(schema, row, new))
}

fn goes_by_key(schema: &Schema, row: &Row) -> bool
    ensures { result ≡ goes_by_key schema.now row.now }
{
    schema.phdam && row.code == 1
}

fn is_below(schema: &Schema, row: &Row, new: &Row) -> bool
    ensures { result ≡ is_lt (twin_cmp schema.now row.now new.now) }
{
    if row.code == 1 {
        return root_cmp(schema, row_key(schema, row), row_key(schema, new)).is_lt();
    }
    row_key(schema, row).cmp(row_key(schema, new)).is_lt()
}
