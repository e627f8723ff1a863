ghost use Rattle.std.specs.Prelude.{◌≡◌, ◌<◌, ◌≤◌, [], IfErr, IsTrue, OnOk, length};
ghost use Rattle.std.specs.List.{slice_get};
ghost use Rattle.hal_schema.specs.Faults.{IsFault, IsFaultAt};
ghost use Rattle.hal_schema.specs.Keeps.{KeepsRest, KeepsStatements};
ghost use Rattle.hal_schema.specs.Lawful.{parents_are_before};
ghost use Rattle.hal_schema.specs.Raw.{types_of};
ghost use Rattle.hal_schema.specs.Rules.{counts_passed, factors_broken, first_fault, highs_broken, indexes_broken, letters_unknown, misplaced_roots};
ghost use Rattle.hal_schema.specs.Rules.{names_repeated, numbers_broken, root_key_broken, sequence_broken, sizes_broken, unknown_parents};

use crate::fault::judge;
use crate::{RawSchema, SchemaFault, SegType, rules};
use hal_base::List;
use std::alloc::Global;

/// Looks at rules 1 to 8.
pub(crate) fn judge_statements(alloc: Global, raw: &RawSchema) -> Result<(), SchemaFault>
    ensures kept { OnOk result (KeepsStatements raw.now) }
    ensures broken { IfErr result (IsFault (first_fault raw.now)) }
{
    judge_parents(alloc, raw)?;
    judge_roots(alloc, raw)?;
    judge_names(alloc, raw)?;
    judge_counts(alloc, raw)?;
    judge_sizes(alloc, raw)?;
    judge_sequence(alloc, raw)?;
    judge_root_key(alloc, raw)?;
    judge_letters(alloc, raw)
}

/// Looks at rules 9 to 12, over the types that the definition says.
pub(crate) fn judge_rest(
    alloc: Global,
    raw: &RawSchema,
    types: &[SegType],
) -> Result<(), SchemaFault>
    requires same { types.now ≡ types_of raw.now.dbd.types }
    requires some { 0 < length types.now }
    requires few { length types.now ≤ 255 }
    requires parents { IsTrue (parents_are_before types.now) }
    requires kept { KeepsStatements raw.now }
    ensures kept { OnOk result (KeepsRest raw.now) }
    ensures broken { IfErr result (IsFault (first_fault raw.now)) }
{
    judge_indexes(alloc, raw, types)?;
    judge_highs(alloc, raw, types)?;
    judge_factors(alloc, raw)?;
    judge_numbers(alloc, raw)
}

fn judge_parents(alloc: Global, raw: &RawSchema) -> Result<(), SchemaFault>
    ensures kept { OnOk result (unknown_parents raw.now.dbd.types ≡ []) }
    ensures broken { IfErr result (IsFaultAt 1 (unknown_parents raw.now.dbd.types)) }
{
    let mut places = List::new(alloc);
    rules::unknown_parents(&mut places, raw.dbd.types.as_slice())?;
    judge(1, &places)
}

fn judge_roots(alloc: Global, raw: &RawSchema) -> Result<(), SchemaFault>
    ensures kept { OnOk result (misplaced_roots raw.now.dbd.types ≡ []) }
    ensures broken { IfErr result (IsFaultAt 2 (misplaced_roots raw.now.dbd.types)) }
{
    let mut places = List::new(alloc);
    rules::misplaced_roots(&mut places, raw.dbd.types.as_slice())?;
    judge(2, &places)
}

fn judge_names(alloc: Global, raw: &RawSchema) -> Result<(), SchemaFault>
    ensures kept { OnOk result (names_repeated raw.now ≡ []) }
    ensures broken { IfErr result (IsFaultAt 3 (names_repeated raw.now)) }
{
    let mut places = List::new(alloc);
    rules::names_repeated(alloc, &mut places, raw)?;
    judge(3, &places)
}

fn judge_counts(alloc: Global, raw: &RawSchema) -> Result<(), SchemaFault>
    requires { IsTrue (parents_are_before (types_of raw.now.dbd.types)) }
    ensures kept { OnOk result (counts_passed raw.now ≡ []) }
    ensures broken { IfErr result (IsFaultAt 4 (counts_passed raw.now)) }
{
    let mut places = List::new(alloc);
    rules::counts_passed(alloc, &mut places, raw)?;
    judge(4, &places)
}

fn judge_sizes(alloc: Global, raw: &RawSchema) -> Result<(), SchemaFault>
    ensures kept { OnOk result (sizes_broken raw.now.dbd.types ≡ []) }
    ensures broken { IfErr result (IsFaultAt 5 (sizes_broken raw.now.dbd.types)) }
{
    let mut places = List::new(alloc);
    rules::sizes_broken(&mut places, raw.dbd.types.as_slice())?;
    judge(5, &places)
}

fn judge_sequence(alloc: Global, raw: &RawSchema) -> Result<(), SchemaFault>
    ensures kept { OnOk result (sequence_broken raw.now.dbd.types ≡ []) }
    ensures broken { IfErr result (IsFaultAt 6 (sequence_broken raw.now.dbd.types)) }
{
    let mut places = List::new(alloc);
    rules::sequence_broken(&mut places, raw.dbd.types.as_slice())?;
    judge(6, &places)
}

fn judge_root_key(alloc: Global, raw: &RawSchema) -> Result<(), SchemaFault>
    ensures kept { OnOk result (root_key_broken (slice_get raw.now.dbd.types 0) ≡ []) }
    ensures broken { IfErr result (IsFaultAt 7 (root_key_broken (slice_get raw.now.dbd.types 0))) }
{
    let mut places = List::new(alloc);
    rules::root_key_broken(&mut places, raw.dbd.types.as_slice())?;
    judge(7, &places)
}

fn judge_letters(alloc: Global, raw: &RawSchema) -> Result<(), SchemaFault>
    ensures kept { OnOk result (letters_unknown raw.now.dbd.types ≡ []) }
    ensures broken { IfErr result (IsFaultAt 8 (letters_unknown raw.now.dbd.types)) }
{
    let mut places = List::new(alloc);
    rules::letters_unknown(&mut places, raw.dbd.types.as_slice())?;
    judge(8, &places)
}

fn judge_indexes(alloc: Global, raw: &RawSchema, types: &[SegType]) -> Result<(), SchemaFault>
    requires few { length types.now ≤ 255 }
    requires parents { IsTrue (parents_are_before types.now) }
    ensures kept { OnOk result (indexes_broken types.now raw.now.dbd.indexes ≡ []) }
    ensures broken { IfErr result (IsFaultAt 9 (indexes_broken types.now raw.now.dbd.indexes)) }
{
    let mut places = List::new(alloc);
    rules::indexes_broken(alloc, &mut places, types, raw.dbd.indexes.as_slice())?;
    judge(9, &places)
}

fn judge_highs(alloc: Global, raw: &RawSchema, types: &[SegType]) -> Result<(), SchemaFault>
    requires { 0 < length types.now }
    ensures kept { OnOk result (highs_broken types.now raw.now.parts.parts ≡ []) }
    ensures broken { IfErr result (IsFaultAt 10 (highs_broken types.now raw.now.parts.parts)) }
{
    let mut places = List::new(alloc);
    rules::highs_broken(&mut places, types, raw.parts.parts.as_slice())?;
    judge(10, &places)
}

fn judge_factors(alloc: Global, raw: &RawSchema) -> Result<(), SchemaFault>
    ensures kept { OnOk result (factors_broken raw.now.dbd raw.now.parts.parts ≡ []) }
    ensures broken { IfErr result (IsFaultAt 11 (factors_broken raw.now.dbd raw.now.parts.parts)) }
{
    let mut places = List::new(alloc);
    rules::factors_broken(&mut places, &raw.dbd, raw.parts.parts.as_slice())?;
    judge(11, &places)
}

fn judge_numbers(alloc: Global, raw: &RawSchema) -> Result<(), SchemaFault>
    ensures kept { OnOk result (numbers_broken raw.now.parts ≡ []) }
    ensures broken { IfErr result (IsFaultAt 12 (numbers_broken raw.now.parts)) }
{
    let mut places = List::new(alloc);
    rules::numbers_broken(&mut places, &raw.parts)?;
    judge(12, &places)
}
