// The root key that a GU asks for: of the root alone, or with what is below it.
ghost use Rattle.std.specs.Prelude.{◌≡◌, IfOk, None, false, nat_lt, option_and_then};
ghost use Rattle.std.specs.Option.{option_map_or};
ghost use Rattle.dli_calls.specs.Ssas.{code_named, subject_of};
ghost use Rattle.call_gets.specs.Keyed.{goes_below, key_wanted, keyed_by, keyed_path, one_of, root_wanted};

use crate::clauses::fitted;
use crate::form::{asks_last, last_of};
use crate::functions::is_unique;
use crate::high::{is_at_root_key, is_of_root};
use crate::names::code_named;
use crate::subjects::field_named;
use call_text::{Call, Clause, Ssa};
use hal_base::{Bytes, Memory};
use hal_schema::Schema;

/// The root key that a GU asks for whose only SSA wants the root key to equal a value.
pub(crate) fn keyed_by(schema: &Schema, call: &Call) -> Result<Option<Bytes>, Memory>
    ensures { IfOk result (λ key. key ≡ keyed_by schema.now call.now) }
{
    if !is_unique(call) {
        return Ok(None);
    }
    wanted_by_one(schema, call.ssas.as_slice())
}

/// The root key that a GU asks for whose first SSA wants the root key to equal a value and whose last is of a type below.
pub(crate) fn keyed_path(schema: &Schema, call: &Call) -> Result<Option<Bytes>, Memory>
    ensures { IfOk result (λ key. key ≡ keyed_path schema.now call.now) }
{
    let ssas = call.ssas.as_slice();
    if !is_unique(call) || !goes_below(schema, ssas) {
        return Ok(None);
    }
    match ssas.first() {
        None => Ok(None),
        Some(ssa) => root_wanted(schema, ssa),
    }
}

pub(crate) fn goes_below(schema: &Schema, ssas: &[Ssa]) -> bool
    ensures { result ≡ goes_below schema.now ssas.now }
{
    match last_of(ssas) {
        None => false,
        Some(ssa) => is_below_root(schema, ssa),
    }
}

fn is_below_root(schema: &Schema, ssa: &Ssa) -> bool
    ensures { result ≡ option_map_or (λ code. nat_lt 1 code) (code_named schema.now ssa.now.seg) false }
{
    match code_named(schema, ssa.seg) {
        None => false,
        Some(code) => code > 1,
    }
}

pub(crate) fn wanted_by_one(schema: &Schema, ssas: &[Ssa]) -> Result<Option<Bytes>, Memory>
    ensures { IfOk result (λ key. key ≡ option_and_then (root_wanted schema.now) (one_of ssas.now)) }
{
    if ssas.len() != 1 {
        return Ok(None);
    }
    root_wanted(schema, &ssas[0])
}

pub(crate) fn root_wanted(schema: &Schema, ssa: &Ssa) -> Result<Option<Bytes>, Memory>
    ensures { IfOk result (λ key. key ≡ root_wanted schema.now ssa.now) }
{
    if !is_of_root(schema, ssa) || asks_last(ssa) {
        return Ok(None);
    }
    wanted_by_clause(schema, ssa.clauses.as_slice())
}

fn wanted_by_clause(schema: &Schema, clauses: &[Clause]) -> Result<Option<Bytes>, Memory>
    ensures { IfOk result (λ key.
        key ≡ option_and_then (λ clause. key_wanted schema.now clause (subject_of schema.now None 1 clause.field)) (one_of clauses.now)) }
{
    if clauses.len() != 1 {
        return Ok(None);
    }
    key_wanted(schema, &clauses[0])
}

fn key_wanted(schema: &Schema, clause: &Clause) -> Result<Option<Bytes>, Memory>
    ensures { IfOk result (λ key. key ≡ key_wanted schema.now clause.now (subject_of schema.now None 1 clause.now.field)) }
{
    match field_named(schema, 1, clause.field) {
        None => Ok(None),
        Some(field) => {
            if !is_at_root_key(schema, &field) || clause.op.as_slice() != b"=".as_slice() {
                return Ok(None);
            }
            fitted(&clause.value, field.bytes)
        }
    }
}
