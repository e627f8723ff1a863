// Places of rows in a list, found as looks at the plain view want them.
ghost use Rattle.std.specs.Prelude.{◌≡◌, ◌≤◌, ◌==◌, ◌&&◌, nat_le, nat_lt, length, option_and_then, IsTrue};
ghost use Rattle.std.specs.List.{position_or_len};
ghost use Rattle.std.specs.Str.{bytes_eq};
ghost use Rattle.hal_schema.specs.Insertion.{through_last};
ghost use Rattle.hal_schema.specs.Row.{row_level};
ghost use Rattle.hal_schema.specs.SegType.{type_of};
ghost use Rattle.position_state.specs.Places.{have_levels, is_of_row, is_root_of, portion_of, rows_before, rows_through};

use crate::Anchor;
use crate::elements::is_same_name;
use hal_schema::{KeyField, Row, Schema, level_of, portion, type_of};

/// The place of the row at a place of the plain view; behind all rows where there is no such row.
pub(crate) fn place_of(rows: &[Row], at: &Anchor) -> usize
    ensures place { result ≡ position_or_len (is_of_row at.now) rows.now }
    ensures within { result ≤ length rows.now }
{
    for (place, row) in rows.iter().enumerate() {
        if is_of_row(at, row) {
            return place;
        }
    }
    rows.len()
}

fn is_of_row(at: &Anchor, row: &Row) -> bool
    ensures { result ≡ is_of_row at.now row.now }
{
    match at {
        Anchor::Front => false,
        Anchor::At { name, entry, .. } => is_same_name(name, &row.name) && entry.is_none(),
    }
}

/// How many rows stand before a place of the plain view.
pub(crate) fn rows_before(rows: &[Row], at: &Anchor) -> usize
    ensures before { result ≡ rows_before at.now rows.now }
    ensures within { result ≤ length rows.now }
{
    match at {
        Anchor::Front => 0,
        Anchor::At { .. } => place_of(rows, at),
    }
}

/// How many rows there are up to a place of the plain view, with the row at it.
pub(crate) fn rows_through(rows: &[Row], at: &Anchor) -> usize
    ensures through { result ≡ rows_through at.now rows.now }
    ensures within { result ≤ length rows.now }
{
    match at {
        Anchor::Front => 0,
        Anchor::At { .. } => (place_of(rows, at) + 1).min(rows.len()),
    }
}

/// The place of the first row that is no deeper than a level.
pub(crate) fn first_up_to(schema: &Schema, rows: &[Row], level: u8) -> usize
    ensures place { result ≡ position_or_len (λ row. nat_le (row_level schema.now.types row) level) rows.now }
    ensures within { result ≤ length rows.now }
{
    for (place, row) in rows.iter().enumerate() {
        if level_of(schema, row.code) <= level {
            return place;
        }
    }
    rows.len()
}

/// The place of the root with a key.
pub(crate) fn place_of_root(schema: &Schema, rows: &[Row], key: &[u8]) -> usize
    ensures { result ≡ position_or_len (is_root_of schema.now.types key.now) rows.now }
{
    let field = root_field(schema);
    for (place, row) in rows.iter().enumerate() {
        if is_root_of(field, key, row) {
            return place;
        }
    }
    rows.len()
}

/// The sequence field of the root type.
fn root_field(schema: &Schema) -> Option<KeyField>
    ensures { result ≡ option_and_then (λ t. t.key) (type_of schema.now.types 1) }
{
    type_of(schema, 1)?.key
}

fn is_root_of(field: Option<KeyField>, key: &[u8], row: &Row) -> bool
    ensures { result ≡ (row.now.code == 1 && bytes_eq (portion_of field row.now.content) key.now) }
{
    row.code == 1 && portion_of(field, row.content.as_slice()) == key
}

/// The bytes of a sequence field, none where there is no such field.
fn portion_of(field: Option<KeyField>, content: &[u8]) -> &[u8]
    ensures { result.now ≡ portion_of field content.now }
{
    match field {
        None => &[],
        Some(field) => portion(content, field.start, field.bytes),
    }
}

/// How many rows there are up to the last one of a higher level.
pub(crate) fn through_above(schema: &Schema, rows: &[Row], level: u8) -> usize
    requires levels { IsTrue (have_levels schema.now.types rows.now) }
    ensures through { result ≡ through_last (λ row. nat_lt (row_level schema.now.types row) level) rows.now }
    ensures within { result ≤ length rows.now }
{
    if level <= 1 {
        return 0;
    }
    let mut after = rows.len();
    'rows: while after > 0 {
        if level_of(schema, rows[after - 1].code) < level {
            return after;
        }
        after -= 1;
    }
    0
}
