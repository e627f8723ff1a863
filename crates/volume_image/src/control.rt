// Control rows, written and read. What is read is written again and compared, so a state has one row.
ghost use Rattle.std.specs.Prelude.{◌≡◌, ◌==◌, ◌&&◌, nat_le, ◌↔◌, ◌+◌, ◌≤◌, ◌++◌, ◌∷◌, ℕ, List, length, get_or, take, drop, IfOk, IfSome, IfNone, IsTrue, Some};
ghost use Rattle.hal_base.specs.declared.place.Cursor.TheVariants.{At};
ghost use Rattle.volume_image.specs.Control.{cursor_kind, cursor_bytes, cursor_fits, most_number, standing_fits, part_state_fits, state_fits, control_row};
ghost use Rattle.volume_image.specs.Rows.{HasRowRoom};
ghost use Rattle.hal_schema.specs.SegType.{key_bytes};

use hal_base::{Bytes, Cursor, Memory, PartState, get16, get32, put16};
use hal_schema::{PartDef, Schema, select};
use std::alloc::Global;

/// The bytes of a control row.
pub const ROW: usize = 128;

/// The row that a state is written as.
pub fn row_of(state: &PartState) -> [u8; ROW]
    requires { length (cursor_bytes state.now.cursor) ≤ 120 }
    ensures { result ≡ control_row state.now }
{
    let mut row = [0; ROW];
    put16(&mut row, 0, state.part);
    put16(&mut row, 2, state.number);
    row[4] = state.side;
    row[5] = state.state;
    row[6] = kind_of(&state.cursor);
    put_cursor(&mut row, &state.cursor);
    row
}

fn kind_of(cursor: &Cursor) -> u8
    ensures { result ≡ cursor_kind cursor.now }
{
    match cursor {
        Cursor::Front => 0,
        Cursor::At(_) => 1,
        Cursor::Anchors(_) => 2,
    }
}

/// Writes a cursor's length and its bytes.
fn put_cursor(row: &mut [u8; ROW], cursor: &Cursor)
    requires { length (cursor_bytes cursor.now) ≤ 120 }
    ensures { row.new ≡ take 7 row.old ++ length (cursor_bytes cursor.now) ∷ cursor_bytes cursor.now ++ drop (8 + length (cursor_bytes cursor.now)) row.old }
{
    match cursor {
        Cursor::Front => put_counted(row, &[]),
        Cursor::At(key) => put_counted(row, key.as_slice()),
        Cursor::Anchors(done) => put_counted(row, &done.to_be_bytes()),
    }
}

fn put_counted(row: &mut [u8; ROW], content: &[u8])
    requires { length content.now ≤ 120 }
    ensures { row.new ≡ take 7 row.old ++ length content.now ∷ content.now ++ drop (8 + length content.now) row.old }
{
    row[7] = content.len() as u8;
    row[8..8 + content.len()].copy_from_slice(content);
}

/// The state that a row is that of, which must also be one that the partition at the place may have; none
/// where there is no such state.
pub fn read_row(
    alloc: Global,
    schema: &Schema,
    place: u16,
    row: &[u8],
) -> Result<Option<PartState>, Memory>
    requires { length row.now ≡ ROW }
    ensures row { IfOk result (λ found. IfSome found (λ state. row.now ≡ control_row state)) }
    ensures fits { IfOk result (λ found. IfSome found (λ state. IsTrue (state_fits schema.now place state))) }
    ensures none { IfOk result (λ found. IfNone found ((state : PartState) → IsTrue (state_fits schema.now place state) → row.now ≡ control_row state → ⊥)) }
    ensures one { IfOk result (λ found. IfSome found (λ state. (other : PartState) → IsTrue (state_fits schema.now place other) → row.now ≡ control_row other → other ≡ state)) }
{
    let Some(state) = state_of(alloc, row)? else {
        return Ok(None);
    };
    if is_lawful(schema, place, row, &state) {
        Ok(Some(state))
    } else {
        Ok(None)
    }
}

/// Whether the row is just that of the state, and the partition at the place may have it.
fn is_lawful(schema: &Schema, place: u16, row: &[u8], state: &PartState) -> bool
    requires { length (cursor_bytes state.now.cursor) ≤ 120 }
    ensures row { IsTrue result → row.now ≡ control_row state.now }
    ensures fits { IsTrue result → IsTrue (state_fits schema.now place state.now) }
    ensures lawful { row.now ≡ control_row state.now → IsTrue (state_fits schema.now place state.now) → IsTrue result }
{
    is_row(state, row) && fits(schema, place, state)
}

fn is_row(state: &PartState, row: &[u8]) -> bool
    requires { length (cursor_bytes state.now.cursor) ≤ 120 }
    ensures { IsTrue result ↔ (row.now ≡ control_row state.now) }
{
    row_of(state).as_slice() == row
}

/// What a row says, be it lawful or not.
fn state_of(alloc: Global, row: &[u8]) -> Result<Option<PartState>, Memory>
    requires { length row.now ≡ ROW }
    ensures short { IfOk result (λ found. IfSome found (λ state. length (cursor_bytes state.cursor) ≤ 120)) }
    ensures found { (state : PartState) → HasRowRoom state → row.now ≡ control_row state → IfOk result (λ found. found ≡ Some state) }
{
    match cursor_of(alloc, row)? {
        Some(cursor) => Ok(Some(PartState {
            part: get16(row, 0),
            number: get16(row, 2),
            side: row[4],
            state: row[5],
            cursor,
        })),
        None => Ok(None),
    }
}

fn cursor_of(alloc: Global, row: &[u8]) -> Result<Option<Cursor>, Memory>
    requires { length row.now ≡ ROW }
    ensures short { IfOk result (λ found. IfSome found (λ cursor. length (cursor_bytes cursor) ≤ 120)) }
    ensures found { (state : PartState) → HasRowRoom state → row.now ≡ control_row state → IfOk result (λ found. found ≡ Some state.cursor) }
{
    match row[6] {
        0 => Ok(Some(Cursor::Front)),
        1 => key_of(alloc, row),
        2 => Ok(Some(Cursor::Anchors(get32(row, 8)))),
        _ => Ok(None),
    }
}

fn key_of(alloc: Global, row: &[u8]) -> Result<Option<Cursor>, Memory>
    requires { length row.now ≡ ROW }
    ensures short { IfOk result (λ found. IfSome found (λ cursor. length (cursor_bytes cursor) ≤ 120)) }
    ensures found { (key : List ℕ) → length key ≤ 120 → get_or row.now 7 0 ≡ length key → take (length key) (drop 8 row.now) ≡ key → IfOk result (λ found. found ≡ Some (At key)) }
{
    let length = usize::from(row[7]);
    if length > 120 {
        return Ok(None);
    }
    let key = Bytes::from_slice(alloc, &row[8..8 + length])?;
    Ok(Some(Cursor::At(key)))
}

fn fits(schema: &Schema, place: u16, state: &PartState) -> bool
    ensures { result ≡ state_fits schema.now place state.now }
{
    match schema.parts.as_slice().get(usize::from(place)) {
        Some(part) => part_fits(schema, place, part, state),
        None => false,
    }
}

fn part_fits(schema: &Schema, place: u16, part: &PartDef, state: &PartState) -> bool
    ensures { result ≡ part_state_fits schema.now place state.now part.now }
{
    numbers_fit(part, state)
        && (state.side == b'A' || state.side == b'M')
        && stands(state)
        && cursor_fits(schema, place, part, &state.cursor)
}

fn numbers_fit(part: &PartDef, state: &PartState) -> bool
    ensures { result ≡ (state.now.part == part.now.number && nat_le 1 state.now.number && nat_le state.now.number (most_number state.now.state)) }
{
    state.part == part.number && state.number >= 1 && state.number <= most_number(state.state)
}

/// The highest reorganization number of a partition that stands so.
fn most_number(state: u8) -> u16
    ensures { result ≡ most_number state }
{
    if state == b'I' { 65535 } else { 65534 }
}

fn stands(state: &PartState) -> bool
    ensures { result ≡ standing_fits state.now }
{
    if state.state == b'I' {
        return kind_of(&state.cursor) == 0;
    }
    state.state == b'C' || state.state == b'P'
}

fn cursor_fits(schema: &Schema, place: u16, part: &PartDef, cursor: &Cursor) -> bool
    ensures { result ≡ cursor_fits schema.now place part.now cursor.now }
{
    match cursor {
        Cursor::Front => true,
        Cursor::At(key) => !schema.phdam
            && is_root_key(schema, key.as_slice())
            && select(schema, key.as_slice()) == Some(place),
        Cursor::Anchors(done) => schema.phdam && *done >= 1 && *done <= part.anchors,
    }
}

fn is_root_key(schema: &Schema, key: &[u8]) -> bool
    ensures { result ≡ (length key.now == key_bytes schema.now.types 1) }
{
    match schema.types.as_slice().first() {
        Some(root) => match root.key {
            Some(field) => key.len() == usize::from(field.bytes),
            None => key.is_empty(),
        }
        None => key.is_empty(),
    }
}
