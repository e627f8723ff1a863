// One load row: the first rule that it breaks, or the row taken.
ghost use Rattle.std.specs.Prelude.{◌≡◌, ◌<◌, ◌≤◌, ℕ, true, false, not, length, IfErr, IfOk, IfSome, IsErrOf, IsTrue, MatchOption, OnOk, Some, None, ⊤};
ghost use Rattle.std.specs.Option.{option_map_or};
ghost use Rattle.csv.specs.Records.{fields_of};
ghost use Rattle.hal_base.specs.Fault.{Fails};
ghost use Rattle.hal_schema.specs.Forest.{has_length, has_unique_key, is_selected};
ghost use Rattle.hal_schema.specs.Row.{row_key};
ghost use Rattle.hal_schema.specs.SegType.{parent_code, type_of};
ghost use Rattle.hal_loader.specs.Carrying.{Stands, StandsAs, RowDid, RowPlaced};
ghost use Rattle.hal_loader.specs.Judging.{level_refusals, root_refusals, kept_refusals, JudgesBy, IsFaultOfTaker, IsJudgement};
ghost use Rattle.hal_loader.specs.Placing.{coming, goes_by_key};
ghost use Rattle.hal_loader.specs.Refusals.{Standing, first_that_holds};
ghost use Rattle.hal_loader.specs.Taker.{LooksForRoot, TellsSame};
ghost use Rattle.hal_loader.specs.declared.fault.RowFault.TheVariants as row;

use crate::fault::RowFault;
use crate::path::{Level, Path};
use crate::said::{Said, row_said};
use crate::twins::level_refusal;
use crate::{RowTaker, TakeFault};
use csv::ByteRecord;
use hal_base::{Ilk, Key};
use hal_schema::{Schema, key_in, parent_code, schemas_are_kept, select};
use std::alloc::Global;

impl From<TakeFault> for RowFault {
    ghost use Rattle.std.specs.Prelude.{◌≡◌};
    ghost use Rattle.hal_loader.specs.Judging.{as_row_fault};

    ghost from_gives = { λ why fault. fault ≡ as_row_fault why };

    fn from(why: TakeFault) -> RowFault {
        match why {
            TakeFault::Twice => RowFault::Broken(*b"NI"),
            TakeFault::NoRoom { need: _ } => RowFault::Broken(*b"+R"),
            TakeFault::Failed => RowFault::Failed,
            TakeFault::Memory => RowFault::Memory,
        }
    }
}

/// The first of the refusals of a root that look at all roots and at the partitions.
fn root_refusal<R: RowTaker>(
    schema: &Schema,
    key: &Key,
    into: &mut R,
) -> Result<Option<[u8; 2]>, RowFault>
    requires live { IsTrue (R.seen into.old).live }
    requires same { R.schema into.old ≡ schema.now }
    ensures answers { IfOk result (λ refusal. IfSome (R.seen into.old).rows (λ rows. refusal ≡ first_that_holds (root_refusals schema.now rows key.now))) }
    ensures looks { OnOk result (TellsSame (R.seen into.old) (R.seen into.new)) }
    ensures never { IfErr result IsFaultOfTaker }
    ensures faults { Fails (IsErrOf result row.Failed) (R.seen into.old).faults (R.seen into.new).faults (R.seen into.new).live }
    ensures schema { R.schema into.new ≡ R.schema into.old }
    ensures steady { R.steady into.old into.new }
{
    if schema.phdam && has_root(key, into)? {
        return Ok(Some(*b"LB"));
    }
    if select(schema, key.as_slice()).is_none() {
        return Ok(Some(*b"FM"));
    }
    Ok(None)
}

/// Whether a root has this key.
fn has_root<R: RowTaker>(key: &Key, into: &mut R) -> Result<bool, RowFault>
    requires live { IsTrue (R.seen into.old).live }
    ensures looks { IfOk result (LooksForRoot (R.schema into.old).types key.now (R.seen into.old) (R.seen into.new)) }
    ensures never { IfErr result IsFaultOfTaker }
    ensures faults { Fails (IsErrOf result row.Failed) (R.seen into.old).faults (R.seen into.new).faults (R.seen into.new).live }
    ensures schema { R.schema into.new ≡ R.schema into.old }
    ensures steady { R.steady into.old into.new }
{
    match into.has_root(key.as_slice()) {
        Ok(found) => Ok(found),
        Err(TakeFault::Failed) => Err(RowFault::Failed),
        Err(_) => Err(RowFault::Memory),
    }
}

/// Judges a row by what is kept of the rows before.
fn judge<R: RowTaker>(
    schema: &Schema,
    said: &Said,
    parent: Option<Ilk>,
    key: &Key,
    below: &Option<Level>,
    into: &mut R,
) -> Result<(), RowFault>
    requires live { IsTrue (R.seen into.old).live }
    requires same { R.schema into.old ≡ schema.now }
    ensures judges { IfSome (R.seen into.old).rows (λ rows. JudgesBy (kept_refusals schema.now rows said.now.code parent key.now below.now) result) }
    ensures looks { IsJudgement result → TellsSame (R.seen into.old) (R.seen into.new) }
    ensures faults { Fails (IsErrOf result row.Failed) (R.seen into.old).faults (R.seen into.new).faults (R.seen into.new).live }
    ensures schema { R.schema into.new ≡ R.schema into.old }
    ensures steady { R.steady into.old into.new }
{
    if let Some(code) = level_refusal(schema, said.code, parent, key, below) {
        return Err(RowFault::Broken(code));
    }
    if said.code != 1 {
        return Ok(());
    }
    match root_refusal(schema, key, into)? {
        Some(code) => Err(RowFault::Broken(code)),
        None => Ok(()),
    }
}

/// Judges what a record says as a row behind those that stand, and has it taken where it breaks no rule.
fn place_row<R: RowTaker>(
    alloc: Global,
    schema: &Schema,
    said: &Said,
    path: &mut Path,
    into: &mut R,
) -> Result<(), RowFault>
    requires live { IsTrue (R.seen into.old).live }
    requires same { R.schema into.old ≡ schema.now }
    requires stands { Stands schema.now (R.seen into.old) path.old }
    requires long { IsTrue (has_length schema.now.types (coming None said.now.code said.now.content)) }
    ensures did { (at : Standing) → StandsAs schema.now (R.seen into.old) path.old at → RowPlaced schema.now at said.now.code said.now.content (R.seen into.new) path.new result }
    ensures untold { MatchOption (R.seen into.old).rows (IsJudgement result → (R.seen into.new).rows ≡ None) (λ rows. ⊤) }
    ensures faults { Fails (IsErrOf result row.Failed) (R.seen into.old).faults (R.seen into.new).faults (R.seen into.new).live }
    ensures schema { R.schema into.new ≡ R.schema into.old }
    ensures steady { R.steady into.old into.new }
{
    schemas_are_kept();
    let below = path.climb(parent_code(schema, said.code));
    let key = Key::from_slice(alloc, key_in(schema, said.code, said.content.as_slice()))?;
    let parent = path.name();
    if let Err(why) = judge(schema, said, parent, &key, &below, into) {
        return Err(why);
    }
    match into.take(parent, said.code, &said.content) {
        Ok(name) => {
            path.push(Level {
                code: said.code,
                name,
                key,
            })?;
            Ok(())
        }
        Err(why) => Err(RowFault::from(why)),
    }
}

/// Judges a record as a row behind those that stand, and has it taken where it breaks no rule.
pub(crate) fn load_row<R: RowTaker>(
    alloc: Global,
    schema: &Schema,
    fields: &ByteRecord,
    path: &mut Path,
    into: &mut R,
) -> Result<(), RowFault>
    requires live { IsTrue (R.seen into.old).live }
    requires same { R.schema into.old ≡ schema.now }
    requires stands { Stands schema.now (R.seen into.old) path.old }
    ensures did { (at : Standing) → StandsAs schema.now (R.seen into.old) path.old at → RowDid schema.now at (fields_of fields.now) (R.seen into.new) path.new result }
    ensures untold { MatchOption (R.seen into.old).rows (IsJudgement result → (R.seen into.new).rows ≡ None) (λ rows. ⊤) }
    ensures faults { Fails (IsErrOf result row.Failed) (R.seen into.old).faults (R.seen into.new).faults (R.seen into.new).live }
    ensures schema { R.schema into.new ≡ R.schema into.old }
    ensures steady { R.steady into.old into.new }
{
    match row_said(alloc, schema, fields) {
        Ok(said) => place_row(alloc, schema, &said, path, into),
        Err(why) => Err(why),
    }
}
