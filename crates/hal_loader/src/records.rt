// The loop over the records of a text.
ghost use Rattle.std.specs.Prelude.{◌≡◌, ◌<◌, ◌-◌, ◌^◌, [], length, IfSome, IsErrOf, IsTrue, Err};
ghost use Rattle.hal_base.specs.Fault.{Fails};
ghost use Rattle.hal_loader.specs.Ending.{at_row};
ghost use Rattle.hal_loader.specs.Loading.{LoadsText};
ghost use Rattle.hal_loader.specs.declared.records.LoadFault.TheVariants as load;

use crate::RowTaker;
use crate::fault::RowFault;
use crate::path::Path;
use crate::row::load_row;
use csv::ReaderBuilder;
use hal_schema::Schema;
use std::alloc::Global;

/// Why a text wasn't loaded.
#[derive(Clone, Copy, Debug, PartialEq, Eq)]
pub enum LoadFault {
    NotEmpty,
    /// The first row that breaks a rule, counted from 1, and the code of that rule.
    Row { row: u32, code: [u8; 2] },
    Failed,
    Memory,
}

/// Loads the rows of a text into a taker that has none, and answers how many they are. The row that breaks a rule isn't
/// taken, and those before it are; to have all or none is the caller's, who commits or forgets.
pub fn load<R: RowTaker>(
    alloc: Global,
    schema: &Schema,
    text: &[u8],
    into: &mut R,
) -> Result<u32, LoadFault>
    requires live { IsTrue (R.seen into.old).live }
    requires same { R.schema into.old ≡ schema.now }
    requires short { length text.now < 2 ^ 32 }
    ensures loads { LoadsText schema.now text.now (R.seen into.old) (R.seen into.new) result }
    ensures not_empty { IfSome (R.seen into.old).rows (λ rows. (rows ≡ [] → ⊥) → result ≡ Err load.NotEmpty) }
    ensures faults { Fails (IsErrOf result load.Failed) (R.seen into.old).faults (R.seen into.new).faults (R.seen into.new).live }
    ensures schema { R.schema into.new ≡ R.schema into.old }
    ensures steady { R.steady into.old into.new }
{
    if !into.is_empty() {
        return Err(LoadFault::NotEmpty);
    }
    load_records(alloc, schema, text, into)
}

/// The same, into a taker that is empty where it tells its rows.
fn load_records<R: RowTaker>(
    alloc: Global,
    schema: &Schema,
    text: &[u8],
    into: &mut R,
) -> Result<u32, LoadFault>
    requires live { IsTrue (R.seen into.old).live }
    requires same { R.schema into.old ≡ schema.now }
    requires short { length text.now < 2 ^ 32 }
    requires empty { IfSome (R.seen into.old).rows (λ rows. rows ≡ []) }
    ensures loads { LoadsText schema.now text.now (R.seen into.old) (R.seen into.new) result }
    ensures empty { IsErrOf result load.NotEmpty → ⊥ }
    ensures faults { Fails (IsErrOf result load.Failed) (R.seen into.old).faults (R.seen into.new).faults (R.seen into.new).live }
    ensures schema { R.schema into.new ≡ R.schema into.old }
    ensures steady { R.steady into.old into.new }
{
    let reader = ReaderBuilder::new()
        .has_headers(false)
        .flexible(true)
        .from_reader(alloc, text);
    let mut path = Path::new(alloc);
    let mut done = 0;
    for item in reader.into_byte_records() {
        let Ok(fields) = item else {
            return Err(LoadFault::Memory);
        };
        if let Err(why) = load_row(alloc, schema, &fields, &mut path, into) {
            return Err(at_row(done, why));
        }
        done += 1;
    }
    Ok(done)
}

/// A fault at the row behind so many.
fn at_row(done: u32, why: RowFault) -> LoadFault
    requires { done < 2 ^ 32 - 1 }
    ensures { result ≡ at_row done why }
{
    match why {
        RowFault::Broken(code) => LoadFault::Row {
            row: done + 1,
            code,
        },
        RowFault::Failed => LoadFault::Failed,
        RowFault::Memory => LoadFault::Memory,
    }
}
