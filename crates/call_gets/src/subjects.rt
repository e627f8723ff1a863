// What the clauses of a call speak of: fields, and the search fields of the session's index.
ghost use Rattle.std.specs.Prelude.{◌≡◌, ◌≤◌, find, is_none, length, sum_by};
ghost use Rattle.std.specs.List.{list_any};
ghost use Rattle.std.specs.Option.{option_and_then, option_map};
ghost use Rattle.std.specs.Str.{bytes_eq};
ghost use Rattle.hal_schema.specs.SegType.{search_bytes, type_of};
ghost use Rattle.dli_calls.specs.Refusals.{any_subject, is_misfit, is_unknown};
ghost use Rattle.dli_calls.specs.Ssas.{index_of, search_named, subject_bytes, subject_of};

use crate::form::is_unfit;
use crate::names::{code_named, index_of};
use call_text::{Clause, Ssa};
use hal_base::Name8;
use hal_schema::{Field, IndexDef, Schema, type_of};

/// Whether an SSA of a known segment has a value that doesn't fit what its clause speaks of.
pub(crate) fn has_misfit(schema: &Schema, index: Option<u8>, ssa: &Ssa) -> bool
    ensures { result ≡ any_subject schema.now index is_misfit ssa.now }
{
    match code_named(schema, ssa.seg) {
        None => false,
        Some(code) => any_misfit(schema, index, code, ssa.clauses.as_slice()),
    }
}

fn any_misfit(schema: &Schema, index: Option<u8>, code: u8, clauses: &[Clause]) -> bool
    ensures { result ≡ list_any (λ clause. is_misfit clause (subject_of schema.now index code clause.field)) clauses.now }
{
    clauses
        .iter()
        .any(|clause| is_misfit(schema, index, code, clause))
}

fn is_misfit(schema: &Schema, index: Option<u8>, code: u8, clause: &Clause) -> bool
    ensures { result ≡ is_misfit clause.now (subject_of schema.now index code clause.now.field) }
{
    match bytes_named(schema, index, code, clause.field) {
        None => false,
        Some(bytes) => is_unfit(&clause.value, bytes),
    }
}

/// Whether an SSA of a known segment names a field that the segment doesn't have.
pub(crate) fn has_unknown(schema: &Schema, index: Option<u8>, ssa: &Ssa) -> bool
    ensures { result ≡ any_subject schema.now index is_unknown ssa.now }
{
    match code_named(schema, ssa.seg) {
        None => false,
        Some(code) => any_unknown(schema, index, code, ssa.clauses.as_slice()),
    }
}

fn any_unknown(schema: &Schema, index: Option<u8>, code: u8, clauses: &[Clause]) -> bool
    ensures { result ≡ list_any (λ clause. is_unknown clause (subject_of schema.now index code clause.field)) clauses.now }
{
    clauses
        .iter()
        .any(|clause| is_unknown(schema, index, code, clause.field))
}

fn is_unknown(schema: &Schema, index: Option<u8>, code: u8, name: Name8) -> bool
    ensures { result ≡ is_none (subject_of schema.now index code name) }
{
    bytes_named(schema, index, code, name).is_none()
}

/// How many bytes are compared where a clause has this name: those of a field, or of the search fields.
fn bytes_named(schema: &Schema, index: Option<u8>, code: u8, name: Name8) -> Option<usize>
    ensures { result ≡ option_map subject_bytes (subject_of schema.now index code name) }
{
    match searched(schema, index, code, name) {
        Some(bytes) => Some(bytes),
        None => match field_named(schema, code, name) {
            None => None,
            Some(field) => Some(field.bytes as usize),
        },
    }
}

fn searched(schema: &Schema, index: Option<u8>, code: u8, name: Name8) -> Option<usize>
    ensures { result ≡ option_map subject_bytes (option_and_then (λ i. search_named i code name) (index_of schema.now index)) }
{
    match index_of(schema, index) {
        None => None,
        Some(index) => searched_by(index, code, name),
    }
}

fn searched_by(index: &IndexDef, code: u8, name: Name8) -> Option<usize>
    requires { length index.now.search ≤ 5 }
    ensures { result ≡ option_map subject_bytes (search_named index.now code name) }
{
    if code == index.target && name == index.xdfld {
        Some(search_bytes(index))
    } else {
        None
    }
}

/// How long the search fields are.
fn search_bytes(index: &IndexDef) -> usize
    requires { length index.now.search ≤ 5 }
    ensures { result ≡ search_bytes index.now }
{
    index
        .search
        .as_slice()
        .iter()
        .map(|field| field.bytes as usize)
        .sum()
}

/// The field of a type with a name.
pub(crate) fn field_named(schema: &Schema, code: u8, name: Name8) -> Option<Field>
    ensures { result ≡ option_and_then (λ t. find (λ f. bytes_eq f.name name) t.fields) (type_of schema.now.types code) }
{
    find_named(type_of(schema, code)?.fields.as_slice(), name)
}

fn find_named(fields: &[Field], name: Name8) -> Option<Field>
    ensures { result ≡ find (λ f. bytes_eq f.name name) fields.now }
{
    for field in fields {
        if field.name == name {
            return Some(*field);
        }
    }
    None
}
