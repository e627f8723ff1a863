// What a type says of its segments: the type of a code, its parent and level, and the bytes of a field.
ghost use Rattle.std.specs.Prelude.{◌≡◌, ◌+◌, ◌-◌, ◌<◌, length};
ghost use Rattle.std.specs.Option.{option_copied};
ghost use Rattle.hal_schema.specs.SegType.{is_parent_code, key_in, level_of, parent_code, portion, type_of};
ghost use Rattle.hal_schema.specs.Row.{row_key};

use crate::{Row, Schema, SegType};

/// The type of a code, none where the schema has no such code.
pub fn type_of(schema: &Schema, code: u8) -> Option<&SegType>
    ensures { option_copied result ≡ type_of schema.now.types code }
{
    if code == 0 {
        return None;
    }
    schema.types.as_slice().get(code as usize - 1)
}

/// The code of a type's parent; the root type has none, nor has a code that the schema doesn't have.
pub fn parent_code(schema: &Schema, code: u8) -> Option<u8>
    ensures { result ≡ parent_code schema.now.types code }
{
    type_of(schema, code)?.parent
}

/// Whether the second type's parent is the first.
pub fn is_parent_code(schema: &Schema, above: u8, code: u8) -> bool
    ensures { result ≡ is_parent_code schema.now.types above code }
{
    match parent_code(schema, code) {
        None => false,
        Some(parent) => parent == above,
    }
}

/// The level of a type, 1 for the root type; 0 for the code 0, and 1 for a code that the schema doesn't have.
pub fn level_of(schema: &Schema, code: u8) -> u8
    ensures { result ≡ level_of schema.now.types code }
{
    if code == 0 {
        return 0;
    }
    if code as usize > schema.types.len() {
        return 1;
    }
    schema.level(code)
}

/// The bytes from a start that counts from 1, as far as the content has them.
pub fn portion(content: &[u8], start: u16, bytes: u16) -> &[u8]
    ensures { result.now ≡ portion start bytes content.now }
{
    let from = (start as usize).saturating_sub(1);
    let to = from + bytes as usize;
    &content[from.min(content.len())..to.min(content.len())]
}

/// The sequence field in a content of a type, empty where the type has none.
pub fn key_in<'a>(schema: &Schema, code: u8, content: &'a [u8]) -> &'a [u8]
    ensures { result.now ≡ key_in schema.now.types code content.now }
{
    match type_of(schema, code) {
        None => &[],
        Some(seg_type) => match seg_type.key {
            None => &[],
            Some(key) => portion(content, key.start, key.bytes),
        },
    }
}

/// The sequence field of a row, empty where its type has none.
pub fn row_key<'a>(schema: &Schema, row: &'a Row) -> &'a [u8]
    ensures { result.now ≡ row_key schema.now.types row.now }
{
    key_in(schema, row.code, row.content.as_slice())
}
