// The whole file.
ghost use Rattle.std.specs.Prelude.{IfOk, IsTrue};
ghost use Rattle.hal_schema.specs.Named.{parts_are_named};
ghost use Rattle.hal_schema.specs.Reading.{Says};
ghost use Rattle.partition_reader.specs.Partitions.{partitions_of};

use crate::table::parts_of;
use hal_schema::{RawParts, TextFault};
use std::alloc::Global;

#[tactic(auto, unfolding(crate::specs::Partitions::partitions_of, crate::specs::Partitions::toml_of))]
fn read_text(alloc: Global, text: &[u8]) -> Result<RawParts, TextFault>
    ensures { Says result (partitions_of text.now) }
{
    let Ok(text) = str::from_utf8(text) else {
        return Err(TextFault::Rule { rule: 21, line: 0 });
    };
    match toml::table_from_str(alloc, text) {
        Ok(table) => parts_of(alloc, &table),
        Err(fault) if fault.is_memory() => Err(TextFault::Memory),
        Err(_) => Err(TextFault::Rule { rule: 21, line: 0 }),
    }
}

/// Reads a partition file: the raw definitions of its partitions in the order of the file, whose own rules
/// aren't looked at yet.
///
/// The first table that breaks a rule is said by its place, which counts the partitions from 1; 0 is the file's
/// own table.
pub fn read_partitions(alloc: Global, text: &[u8]) -> Result<RawParts, TextFault>
    ensures says { Says result (partitions_of text.now) }
    // The names that a file says are plain.
    ensures named { IfOk result (λ parts. IsTrue (parts_are_named parts)) }
{
    read_text(alloc, text)
}
