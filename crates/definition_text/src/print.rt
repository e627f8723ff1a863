ghost use Rattle.std.specs.Prelude.{◌≡◌, ◌++◌, ℕ, IfOk, List, length};
ghost use Rattle.hal_schema.specs.declared.raw.RawDbd.{RawDbd};
ghost use Rattle.hal_schema.specs.Raw.{parts_of};
ghost use Rattle.dbd_reader.specs.Definition.{meaning_of};
ghost use Rattle.definition_printer.specs.Dbd.{dbd_text};
ghost use Rattle.definition_printer.specs.Partitions.{partitions_text};
ghost use Rattle.partition_reader.specs.Partitions.{partitions_of};
ghost use Rattle.definition_text.specs.Builds.{IsDefinitionOf};
ghost use Rattle.definition_text.specs.Raw.{raw_parts_of};
ghost use Rattle.definition_text.specs.RawDbd.{raw_dbd_of};

use hal_base::{Bytes, Memory};
use hal_schema::{Schema, schemas_are_kept};
use std::alloc::Global;

/// The canonical DBD text, as `definition_printer` prints it. Whatever stands behind its END line, it reads as the raw
/// definition of the schema, with the line numbers of its own statements.
pub fn print_dbd(alloc: Global, schema: &Schema) -> Result<Bytes, Memory>
    ensures text { IfOk result (λ text. text ≡ dbd_text schema.now) }
    ensures reads_back { IfOk result (λ text. (rest : List ℕ) → meaning_of (text ++ rest) ≡ Ok (raw_dbd_of schema.now, length text)) }
    // With the canonical partition file behind it, it is a definition of this schema and of no other.
    ensures rebuilds { IfOk result (λ text. IsDefinitionOf (text ++ partitions_text schema.now) schema.now) }
{
    // Read for their range alone: numbers of 32 bits are read back from their digits.
    let (_anch, _rbn) = (schema.anch, schema.rbn);
    schemas_are_kept();
    let text = definition_printer::print_dbd(alloc, schema)?;
    Ok(text)
}

/// The canonical partition file, as `definition_printer` prints it. It reads as the raw definitions of the schema's
/// partitions, and these build the same partitions again, in the same order, whatever the DBD text says.
pub fn print_partitions(alloc: Global, schema: &Schema) -> Result<Bytes, Memory>
    ensures text { IfOk result (λ text. text ≡ partitions_text schema.now) }
    ensures rebuilds { IfOk result (λ _. (dbd : RawDbd) → parts_of dbd (raw_parts_of schema.now).parts ≡ schema.now.parts) }
    ensures reads_back { IfOk result (λ text. partitions_of text ≡ Ok (raw_parts_of schema.now)) }
{
    schemas_are_kept();
    let text = definition_printer::print_partitions(alloc, schema)?;
    Ok(text)
}
