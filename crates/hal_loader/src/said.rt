// What a record of a text says by itself.
ghost use Rattle.std.specs.Prelude.{◌≡◌, ◌+◌, ◌-◌, ◌<◌, ◌≤◌, ◌++◌, length, replicate, None, IfOk, IfSome, IsTrue, option_map, option_and_then, position};
ghost use Rattle.std.specs.Str.{bytes_eq};
ghost use Rattle.csv.specs.Records.{fields_of};
ghost use Rattle.hal_schema.specs.Forest.{has_length};
ghost use Rattle.hal_schema.specs.SegType.{type_of};
ghost use Rattle.hal_loader.specs.Placing.{coming};
ghost use Rattle.hal_loader.specs.Saying.{SaysRecord};
ghost use Rattle.hal_loader.specs.Text.{code_named, content_of, field_of, name_said, text_content, hex_content};

use crate::fault::RowFault;
use csv::ByteRecord;
use hal_base::{Bytes, Memory, Name8, are_printable};
use hal_schema::{Schema, SegType, type_of};
use std::alloc::Global;

/// The type and the content of a row.
#[derive(Debug, Drop)]
pub(crate) struct Said {
    pub code: u8,
    pub content: Bytes,
}

pub(crate) fn row_said(
    alloc: Global,
    schema: &Schema,
    fields: &ByteRecord,
) -> Result<Said, RowFault>
    ensures says { SaysRecord schema.now.types (fields_of fields.now) result }
    ensures long { IfOk result (λ said. IsTrue (has_length schema.now.types (coming None said.code said.content))) }
{
    if fields.len() != 3 {
        return Err(RowFault::Broken(*b"F1"));
    }
    let Some(code) = code_named(schema.types.as_slice(), field(fields, 0)) else {
        return Err(RowFault::Broken(*b"F2"));
    };
    match content_for(alloc, schema, code, field(fields, 1), field(fields, 2)) {
        Ok(Some(content)) => Ok(Said { code, content }),
        Ok(None) => Err(RowFault::Broken(*b"F3")),
        Err(Memory) => Err(RowFault::Memory),
    }
}

/// The field at a place, empty where there is none.
fn field(fields: &ByteRecord, place: usize) -> &[u8]
    ensures { result.now ≡ field_of place (fields_of fields.now) }
{
    match fields.get(place) {
        Some(field) => field,
        None => &[],
    }
}

/// The code of the type that a segment's name is of.
fn code_named(types: &[SegType], segment: &[u8]) -> Option<u8>
    requires { length types.now ≤ 255 }
    ensures { result ≡ code_named types.now segment.now }
{
    match name_said(segment) {
        Some(name) => code_of(types, name),
        None => None,
    }
}

fn name_said(segment: &[u8]) -> Option<Name8>
    ensures { result ≡ name_said segment.now }
{
    Name8::read(segment)
}

fn code_of(types: &[SegType], name: Name8) -> Option<u8>
    requires { length types.now ≤ 255 }
    ensures { result ≡ option_map (λ place. place + 1) (position (λ t. bytes_eq t.name name) types.now) }
{
    match place_of(types, name) {
        Some(place) => Some(place as u8 + 1),
        None => None,
    }
}

fn place_of(types: &[SegType], name: Name8) -> Option<usize>
    ensures place { result ≡ position (λ t. bytes_eq t.name name) types.now }
    ensures within { IfSome result (λ place. place < length types.now) }
{
    for (place, t) in types.iter().enumerate() {
        if t.name == name {
            return Some(place);
        }
    }
    None
}

/// The content that a form and a value say for a type; none where they don't fit it.
fn content_for(
    alloc: Global,
    schema: &Schema,
    code: u8,
    form: &[u8],
    value: &[u8],
) -> Result<Option<Bytes>, Memory>
    ensures content { IfOk result (λ c. c ≡ option_and_then (λ t. content_of t.bytes form.now value.now) (type_of schema.now.types code)) }
    ensures long { IfOk result (λ c. IfSome c (λ content. IsTrue (has_length schema.now.types (coming None code content)))) }
{
    match type_of(schema, code) {
        Some(t) => content_of(alloc, t.bytes, form, value),
        None => Ok(None),
    }
}

fn content_of(alloc: Global, bytes: u16, form: &[u8], value: &[u8]) -> Result<Option<Bytes>, Memory>
    ensures content { IfOk result (λ content. content ≡ content_of bytes form.now value.now) }
    ensures long { IfOk result (λ c. IfSome c (λ content. length content ≡ bytes)) }
{
    match form {
        b"T" => text_content(alloc, bytes, value),
        b"X" => hex_content(alloc, bytes, value),
        _ => Ok(None),
    }
}

/// A value as text, padded with blanks.
fn text_content(alloc: Global, bytes: u16, value: &[u8]) -> Result<Option<Bytes>, Memory>
    ensures content { IfOk result (λ content. content ≡ text_content bytes value.now) }
    ensures long { IfOk result (λ c. IfSome c (λ content. length content ≡ bytes)) }
{
    if !are_printable(value) || value.len() > bytes as usize {
        return Ok(None);
    }
    match padded(alloc, bytes as usize, value) {
        Ok(content) => Ok(Some(content)),
        Err(Memory) => Err(Memory),
    }
}

fn padded(alloc: Global, bytes: usize, value: &[u8]) -> Result<Bytes, Memory>
    requires { length value.now ≤ bytes }
    ensures content { IfOk result (λ content. content ≡ value.now ++ replicate (bytes - length value.now) 32) }
    ensures long { IfOk result (λ content. length content ≡ bytes) }
{
    let blanks = vec![in alloc; b' '; bytes - value.len()]?;
    let mut content = Bytes::from_slice(alloc, value)?;
    content.append(&blanks)?;
    Ok(content)
}

/// A value as hexadecimal digits.
fn hex_content(alloc: Global, bytes: u16, value: &[u8]) -> Result<Option<Bytes>, Memory>
    ensures content { IfOk result (λ content. content ≡ hex_content bytes value.now) }
    ensures long { IfOk result (λ c. IfSome c (λ content. length content ≡ bytes)) }
{
    let mut content = vec![in alloc; 0; bytes as usize]?;
    match hex::decode_to_slice(value, content.as_mut_slice()) {
        Ok(()) => Ok(Some(Bytes::from_vec(content))),
        Err(_) => Ok(None),
    }
}
