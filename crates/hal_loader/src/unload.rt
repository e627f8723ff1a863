// A row as a record of a text.
ghost use Rattle.std.specs.Prelude.{◌≡◌, ◌<◌, ◌≤◌, ◌∷◌, [], map, length, IfOk};
ghost use Rattle.csv.specs.Writing.{default_writer, row_text};
ghost use Rattle.hex.specs.Hex.{encode_upper};
ghost use Rattle.hal_loader.specs.Unloading.{row_line};

use csv::WriterBuilder;
use hal_base::{Bytes, Memory, are_printable};
use hal_schema::{Row, Schema};
use std::alloc::Global;

/// The record that says a row, with the end of its line.
pub fn unload_row(alloc: Global, schema: &Schema, row: &Row) -> Result<Bytes, Memory>
    requires above { 0 < row.now.code }
    requires known { row.now.code ≤ length schema.now.types }
    ensures { IfOk result (λ line. line ≡ row_line schema.now.types row.now) }
{
    let name = schema.types.as_slice()[row.code as usize - 1].name;
    let content = row.content.as_slice();
    if are_printable(content) {
        return record_of(alloc, &[name.as_slice(), b"T", content]);
    }
    let digits = upper_hex(alloc, content)?;
    record_of(alloc, &[name.as_slice(), b"X", digits.as_slice()])
}

fn upper_hex(alloc: Global, content: &[u8]) -> Result<Bytes, Memory>
    ensures { IfOk result (λ digits. digits ≡ encode_upper content.now) }
{
    match hex::encode_upper(alloc, content) {
        Ok(digits) => Ok(Bytes::from_vec(digits.into_bytes())),
        Err(_) => Err(Memory),
    }
}

fn record_of(alloc: Global, fields: &[&[u8]]) -> Result<Bytes, Memory>
    ensures { IfOk result (λ line. line ≡ row_text default_writer (map (λ f. f.now) fields.now)) }
{
    let mut writer = WriterBuilder::new().from_writer(Vec::new(alloc));
    if writer.write_fields(fields).is_err() {
        return Err(Memory);
    }
    match writer.into_inner() {
        Ok(line) => Ok(Bytes::from_vec(line)),
        Err(_) => Err(Memory),
    }
}
