// Which elements make the clauses of an SSA true, in a session that sees the database in hierarchic sequence.
ghost use Rattle.std.specs.Prelude.{◌≡◌, ◌-◌, ◌++◌, ◌≤◌, ◌&&◌, length, replicate, false, None, IfOk, if◌then◌else◌};
ghost use Rattle.std.specs.Option.{option_map_or};
ghost use Rattle.hal_schema.specs.Keys.{key_cmp};
ghost use Rattle.hal_schema.specs.SegType.{portion};
ghost use Rattle.dli_calls.specs.Meets.{clauses_hold, goes_on};
ghost use Rattle.dli_calls.specs.Ssas.{clause_holds, fitted, operator_of};

use crate::subjects::field_named;
use call_text::{Clause, Value};
use hal_base::{Bytes, Memory};
use hal_schema::{Schema, portion};
use position_state::Spot;
use std::cmp::Ordering;

/// Whether the clauses of an SSA are true of an element. AND binds tighter than OR.
pub(crate) fn clauses_hold(schema: &Schema, spot: &Spot, clauses: &[Clause]) -> Result<bool, Memory>
    ensures { IfOk result (λ holds. holds ≡ clauses_hold (clause_holds schema.now None spot.now.code spot.now) clauses.now) }
{
    match clauses.first() {
        None => Ok(true),
        Some(clause) => {
            let group = clause_holds(schema, spot, clause)?;
            goes_on(schema, spot, group, &clauses[1..])
        }
    }
}

/// Whether what began holds with the clauses that follow.
fn goes_on(schema: &Schema, spot: &Spot, group: bool, clauses: &[Clause]) -> Result<bool, Memory>
    ensures { IfOk result (λ holds. holds ≡ goes_on (clause_holds schema.now None spot.now.code spot.now) group clauses.now) }
{
    let mut group = group;
    for clause in clauses {
        if is_over(group, clause) {
            return Ok(true);
        }
        group = grouped(schema, spot, group, clause)?;
    }
    Ok(group)
}

/// Whether a group of clauses held, and the clause begins another.
fn is_over(group: bool, clause: &Clause) -> bool
    ensures { result ≡ (clause.now.or && group) }
{
    clause.or && group
}

/// Whether the group holds with this clause, or the new group that begins with it.
fn grouped(schema: &Schema, spot: &Spot, group: bool, clause: &Clause) -> Result<bool, Memory>
    ensures { IfOk result (λ holds. holds
        ≡ (if clause.now.or then clause_holds schema.now None spot.now.code spot.now clause.now
        else group && clause_holds schema.now None spot.now.code spot.now clause.now)) }
{
    if !clause.or && !group {
        return Ok(false);
    }
    clause_holds(schema, spot, clause)
}

fn clause_holds(schema: &Schema, spot: &Spot, clause: &Clause) -> Result<bool, Memory>
    ensures { IfOk result (λ holds. holds ≡ clause_holds schema.now None spot.now.code spot.now clause.now) }
{
    match field_named(schema, spot.code, clause.field) {
        None => Ok(false),
        Some(field) => compares(
            clause,
            portion(spot.content.as_slice(), field.start, field.bytes),
            field.bytes,
        ),
    }
}

/// Whether so many bytes of an element compare with a clause's value as its operator says.
fn compares(clause: &Clause, content: &[u8], bytes: u16) -> Result<bool, Memory>
    ensures { IfOk result (λ holds. holds
        ≡ option_map_or (λ value. option_map_or (λ test. test (key_cmp content.now value)) (operator_of clause.now.op) false)
        (fitted bytes clause.now.value) false) }
{
    match fitted(&clause.value, bytes)? {
        None => Ok(false),
        Some(value) => Ok(passes(clause.op.as_slice(), content.cmp(value.as_slice()))),
    }
}

fn passes(op: &[u8], order: Ordering) -> bool
    ensures { result ≡ option_map_or (λ test. test order) (operator_of op.now) false }
{
    if op == b"=".as_slice() {
        order.is_eq()
    } else if op == b">".as_slice() {
        order.is_gt()
    } else if op == b"<".as_slice() {
        order.is_lt()
    } else if op == b">=".as_slice() {
        order.is_ge()
    } else if op == b"<=".as_slice() {
        order.is_le()
    } else if op == b"NE".as_slice() {
        order.is_ne()
    } else {
        false
    }
}

/// A value at a length: a shorter text is padded with blanks. None where it doesn't fit.
pub fn fitted(value: &Value, bytes: u16) -> Result<Option<Bytes>, Memory>
    ensures { IfOk result (λ text. text ≡ fitted bytes value.now) }
{
    match value {
        Value::Text(text) => {
            if text.len() > bytes as usize {
                return Ok(None);
            }
            Ok(Some(padded(text, bytes)?))
        }
        Value::Hex(text) => {
            if text.len() != bytes as usize {
                return Ok(None);
            }
            Ok(Some(text.copy()?))
        }
    }
}

fn padded(text: &Bytes, bytes: u16) -> Result<Bytes, Memory>
    requires { length text.now ≤ bytes }
    ensures { IfOk result (λ padded. padded ≡ text.now ++ replicate (bytes - length text.now) 32) }
{
    let mut padded = text.copy()?;
    for _blank in text.len()..bytes as usize {
        padded.push(b' ')?;
    }
    Ok(padded)
}
