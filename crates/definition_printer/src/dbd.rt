// The DBD text.
ghost use Rattle.std.specs.Prelude.{◌≡◌, ◌++◌, true, IfOk, OnOk};
ghost use Rattle.definition_printer.specs.Wrapped.{wrapped};
ghost use Rattle.definition_printer.specs.Dbd.{method, randomizer, dbd_statement, types_text, end_text, dbd_text};

use crate::segment::put_type;
use crate::wrap::put_wrapped;
use hal_base::{Bytes, Memory, Name8, put_number};
use hal_schema::Schema;
use std::alloc::Global;

fn put_method(out: &mut Bytes, phdam: bool) -> Result<(), Memory>
    ensures { OnOk result (out.new ≡ out.old ++ method phdam) }
{
    if phdam {
        out.append(b"PHDAM")
    } else {
        out.append(b"PHIDAM")
    }
}

fn put_module(
    alloc: Global,
    out: &mut Bytes,
    name: Name8,
    anch: u32,
    rbn: u32,
) -> Result<(), Memory>
    ensures { OnOk result (out.new ≡ out.old ++ randomizer true (Some name) anch rbn) }
{
    out.append(b",RMNAME=(")?;
    out.append(name.as_slice())?;
    out.append(b",")?;
    put_number(alloc, out, anch)?;
    out.append(b",")?;
    put_number(alloc, out, rbn)?;
    out.append(b")")
}

fn put_randomizer(alloc: Global, out: &mut Bytes, schema: &Schema) -> Result<(), Memory>
    ensures { OnOk result (out.new ≡ out.old ++ randomizer schema.now.phdam schema.now.rm schema.now.anch schema.now.rbn) }
{
    match schema.rm {
        Some(name) if schema.phdam => put_module(alloc, out, name, schema.anch, schema.rbn),
        _ => Ok(()),
    }
}

#[tactic(auto, unfolding(crate::specs::Dbd::dbd_statement))]
fn put_database(alloc: Global, out: &mut Bytes, schema: &Schema) -> Result<(), Memory>
    ensures { OnOk result (out.new ≡ out.old ++ wrapped (dbd_statement schema.now)) }
{
    let mut statement = Bytes::from_slice(alloc, b"DBD NAME=")?;
    statement.append(schema.name.as_slice())?;
    statement.append(b",ACCESS=(")?;
    put_method(&mut statement, schema.phdam)?;
    statement.append(b")")?;
    put_randomizer(alloc, &mut statement, schema)?;
    put_wrapped(out, statement.as_slice())
}

/// The statements of all types, whose codes count from 1.
fn put_types(alloc: Global, out: &mut Bytes, schema: &Schema) -> Result<(), Memory>
    ensures { OnOk result (out.new ≡ out.old ++ types_text schema.now.types schema.now.indexes 1 schema.now.types) }
{
    let types = schema.types.as_slice();
    let indexes = schema.indexes.as_slice();
    let mut code: u8 = 0;
    let mut left = types;
    'types: while let [t, behind @ ..] = left {
        code += 1;
        put_type(alloc, out, types, indexes, code, t)?;
        left = behind;
    }
    Ok(())
}

fn put_end(out: &mut Bytes) -> Result<(), Memory>
    ensures { OnOk result (out.new ≡ out.old ++ end_text) }
{
    put_wrapped(out, b"DBDGEN")?;
    put_wrapped(out, b"FINISH")?;
    put_wrapped(out, b"END")
}

/// The canonical DBD text: each statement begins a line, FIELD statements stand before LCHILD statements, and no
/// line has more than 71 bytes.
#[tactic(auto, unfolding(crate::specs::Dbd::dbd_text))]
pub fn print_dbd(alloc: Global, schema: &Schema) -> Result<Bytes, Memory>
    ensures { IfOk result (λ text. text ≡ dbd_text schema.now) }
{
    let mut text = Bytes::new(alloc);
    put_database(alloc, &mut text, schema)?;
    put_types(alloc, &mut text, schema)?;
    put_end(&mut text)?;
    Ok(text)
}
