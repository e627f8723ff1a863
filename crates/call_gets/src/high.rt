// Whether a call asks for a root key that is above every high key.
ghost use Rattle.std.specs.Prelude.{◌≡◌, ◌==◌, ◌&&◌, IfOk, length, false, is_none, option_and_then, codes, None};
ghost use Rattle.std.specs.List.{list_any};
ghost use Rattle.std.specs.Option.{option_map_or};
ghost use Rattle.std.specs.Str.{bytes_eq};
ghost use Rattle.hal_schema.specs.Roots.{partition_of};
ghost use Rattle.hal_schema.specs.SegType.{type_of};
ghost use Rattle.dli_calls.specs.Refusals.{asks_high_root, is_at_root_key, is_high_value};
ghost use Rattle.dli_calls.specs.Ssas.{code_named, fitted, subject_of};

use crate::clauses::fitted;
use crate::names::code_named;
use crate::subjects::field_named;
use call_text::{Clause, Ssa, Value};
use hal_base::Memory;
use hal_schema::{Field, Schema, select, type_of};

/// Whether an SSA is the root's with exactly one clause, for a value of the root key above every high key. IMS: status
/// code FM.
pub(crate) fn asks_high_root(schema: &Schema, ssa: &Ssa) -> Result<bool, Memory>
    ensures { IfOk result (λ asks. asks ≡ asks_high_root schema.now ssa.now) }
{
    if !is_one_of_root(schema, ssa) {
        return Ok(false);
    }
    any_high_value(schema, ssa.clauses.as_slice())
}

fn is_one_of_root(schema: &Schema, ssa: &Ssa) -> bool
    ensures { result ≡ (option_map_or (λ code. code == 1) (code_named schema.now ssa.now.seg) false && (length ssa.now.clauses == 1)) }
{
    is_of_root(schema, ssa) && ssa.clauses.len() == 1
}

pub(crate) fn is_of_root(schema: &Schema, ssa: &Ssa) -> bool
    ensures { result ≡ option_map_or (λ code. code == 1) (code_named schema.now ssa.now.seg) false }
{
    match code_named(schema, ssa.seg) {
        None => false,
        Some(code) => code == 1,
    }
}

fn any_high_value(schema: &Schema, clauses: &[Clause]) -> Result<bool, Memory>
    ensures { IfOk result (λ any. any ≡ list_any (λ clause. is_high_value schema.now clause (subject_of schema.now None 1 clause.field)) clauses.now) }
{
    for clause in clauses {
        if is_high_value(schema, clause)? {
            return Ok(true);
        }
    }
    Ok(false)
}

fn is_high_value(schema: &Schema, clause: &Clause) -> Result<bool, Memory>
    ensures { IfOk result (λ is. is ≡ is_high_value schema.now clause.now (subject_of schema.now None 1 clause.now.field)) }
{
    match field_named(schema, 1, clause.field) {
        None => Ok(false),
        Some(field) => {
            if !is_at_root_key(schema, &field) || clause.op.as_slice() != b"=".as_slice() {
                return Ok(false);
            }
            is_above_all(schema, &clause.value, field.bytes)
        }
    }
}

fn is_above_all(schema: &Schema, value: &Value, bytes: u16) -> Result<bool, Memory>
    ensures { IfOk result (λ is. is ≡ option_map_or (λ key. is_none (partition_of schema.now key)) (fitted bytes value.now) false) }
{
    match fitted(value, bytes)? {
        None => Ok(false),
        Some(key) => Ok(select(schema, key.as_slice()).is_none()),
    }
}

pub(crate) fn is_at_root_key(schema: &Schema, field: &Field) -> bool
    ensures { result ≡ is_at_root_key schema.now field.now }
{
    match type_of(schema, 1) {
        None => false,
        Some(root) => match root.key {
            None => false,
            Some(key) => key.start == field.start && key.bytes == field.bytes,
        },
    }
}
