// The canonical text of a schema: made from it, and read back.
ghost use Rattle.std.specs.Prelude.{◌≡◌, ◌≤◌, ◌<◌, ℕ, List, drop, length, Some, Ok, IfOk, IfSome, IfNone, IsTrue};
ghost use Rattle.hal_schema.specs.declared.raw.RawSchema.{RawSchema};
ghost use Rattle.hal_schema.specs.declared.schema.Schema.{Schema};
ghost use Rattle.hal_schema.specs.Named.{dbd_is_named, parts_are_named};
ghost use Rattle.dbd_reader.specs.Definition.{meaning_of};
ghost use Rattle.partition_reader.specs.Partitions.{partitions_of};
ghost use Rattle.definition_text.specs.Builds.{IsDefinitionOf};
ghost use Rattle.volume_head.specs.Head.{canonical_text, most_text};
ghost use Rattle.volume_head.specs.Definition.{IsCanonical, IsNoCanonical};

use crate::laws::definitions_are_short;
use definition_text::{TextFault, print_dbd, print_partitions, read_dbd, read_partitions};
use hal_base::{Bytes, Memory};
use hal_schema::{RawParts, RawSchema, Schema, SchemaFault};
use std::alloc::Global;

/// The canonical text of a schema: its DBD text, and its partition file behind it.
pub fn canonical_text(alloc: Global, schema: &Schema) -> Result<Bytes, Memory>
    ensures text { IfOk result (λ text. IsCanonical text schema.now) }
    ensures short { IfOk result (λ text. length text ≤ most_text) }
{
    // Read for their range alone.
    let (_anch, _rbn) = (schema.anch, schema.rbn);
    definitions_are_short();
    let mut text = print_dbd(alloc, schema)?;
    let parts = print_partitions(alloc, schema)?;
    text.append(parts.as_slice())?;
    Ok(text)
}

/// The schema whose canonical text this is. A text that says a schema in other words is that of none.
pub fn schema_of(alloc: Global, text: &[u8]) -> Result<Option<Schema>, Memory>
    requires { length text.now ≤ most_text }
    ensures found { IfOk result (λ found. IfSome found (IsCanonical text.now)) }
    ensures none { IfOk result (λ found. IfNone found (IsNoCanonical text.now)) }
{
    let Some(schema) = said_by(alloc, text)? else {
        return Ok(None);
    };
    if prints_as(alloc, &schema, text)? {
        Ok(Some(schema))
    } else {
        Ok(None)
    }
}

fn prints_as(alloc: Global, schema: &Schema, text: &[u8]) -> Result<bool, Memory>
    ensures printed { IfOk result (λ same. IsTrue same → IsCanonical text.now schema.now) }
    ensures same { IfOk result (λ same. IsCanonical text.now schema.now → IsTrue same) }
{
    let printed = canonical_text(alloc, schema)?;
    Ok(printed.as_slice() == text)
}

/// The schema that a text says, in whatever words.
fn said_by(alloc: Global, text: &[u8]) -> Result<Option<Schema>, Memory>
    requires { length text.now ≤ most_text }
    ensures { (schema : Schema) → IsDefinitionOf text.now schema → IfOk result (λ found. found ≡ Some schema) }
{
    let Some(raw) = raw_of(alloc, text)? else {
        return Ok(None);
    };
    match Schema::build(alloc, raw) {
        Ok(schema) => Ok(Some(schema)),
        Err(SchemaFault::Rule { .. }) => Ok(None),
        Err(SchemaFault::Memory) => Err(Memory),
    }
}

/// What a text says, whether its rules are kept or not.
fn raw_of(alloc: Global, text: &[u8]) -> Result<Option<RawSchema>, Memory>
    requires { length text.now ≤ most_text }
    ensures found { (schema : Schema) (of : IsDefinitionOf text.now schema) → IfOk result (λ found. found ≡ Some of.raw) }
    ensures types { IfOk result (λ found. IfSome found (λ raw. 0 < length raw.dbd.types)) }
    ensures named { IfOk result (λ found. IfSome found (λ raw. IsTrue (dbd_is_named raw.dbd))) }
    ensures parts_named { IfOk result (λ found. IfSome found (λ raw. IsTrue (parts_are_named raw.parts))) }
{
    let (dbd, behind) = match read_dbd(alloc, text) {
        Ok(read) => read,
        Err(TextFault::Rule { .. }) => return Ok(None),
        Err(TextFault::Memory) => return Err(Memory),
    };
    match parts_of(alloc, &text[behind..])? {
        Some(parts) => Ok(Some(RawSchema { dbd, parts })),
        None => Ok(None),
    }
}

fn parts_of(alloc: Global, text: &[u8]) -> Result<Option<RawParts>, Memory>
    ensures found { (parts : RawParts) → partitions_of text.now ≡ Ok parts → IfOk result (λ found. found ≡ Some parts) }
    ensures named { IfOk result (λ found. IfSome found (λ parts. IsTrue (parts_are_named parts))) }
{
    match read_partitions(alloc, text) {
        Ok(parts) => Ok(Some(parts)),
        Err(TextFault::Rule { .. }) => Ok(None),
        Err(TextFault::Memory) => Err(Memory),
    }
}
