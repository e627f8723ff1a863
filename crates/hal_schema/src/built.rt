ghost use Rattle.std.specs.Prelude.{◌≡◌, ◌<◌, IfErr, IfOk, IsTrue, None, OnOk, length};
ghost use Rattle.hal_schema.specs.Built.{IsSchemaOf};
ghost use Rattle.hal_schema.specs.Faults.{IsFault};
ghost use Rattle.hal_schema.specs.Named.{dbd_is_named, parts_are_named};
ghost use Rattle.hal_schema.specs.Rules.{first_fault};

use crate::build::{build_indexes, build_parts, build_types};
use crate::judge::{judge_rest, judge_statements};
use crate::rules::{anch_of, rbn_of, rm_of};
use crate::{RawSchema, Schema, SchemaFault};
use std::alloc::Global;

pub(crate) fn built(alloc: Global, raw: &RawSchema) -> Result<Schema, SchemaFault>
    requires some { 0 < length raw.now.dbd.types }
    requires named { IsTrue (dbd_is_named raw.now.dbd) }
    requires parts_named { IsTrue (parts_are_named raw.now.parts) }
    ensures kept { OnOk result (first_fault raw.now ≡ None) }
    ensures schema { IfOk result (IsSchemaOf raw.now) }
    ensures broken { IfErr result (IsFault (first_fault raw.now)) }
{
    judge_statements(alloc, raw)?;
    let types = build_types(alloc, raw.dbd.types.as_slice())?;
    judge_rest(alloc, raw, types.as_slice())?;
    let indexes = build_indexes(alloc, types.as_slice(), raw.dbd.indexes.as_slice())?;
    let parts = build_parts(alloc, &raw.dbd, raw.parts.parts.as_slice())?;
    Ok(Schema {
        name: raw.dbd.name,
        phdam: raw.dbd.phdam,
        rm: rm_of(&raw.dbd),
        anch: anch_of(&raw.dbd),
        rbn: rbn_of(&raw.dbd),
        types,
        indexes,
        parts,
        blocks: raw.parts.blocks,
    })
}
