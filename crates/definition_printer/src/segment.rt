// Statements of a segment type.
ghost use Rattle.std.specs.Prelude.{◌≡◌, ◌++◌, OnOk};
ghost use Rattle.definition_printer.specs.Dbd.{name_of, parent_name, twin_place, segm_statement, type_text};

use crate::field::put_fields;
use crate::index::put_indexes;
use crate::wrap::put_wrapped;
use hal_base::{Bytes, Memory, put_number};
use hal_schema::{IndexDef, SegType};
use std::alloc::Global;

/// The name of the type of a code.
pub fn put_name(out: &mut Bytes, types: &[SegType], code: u8) -> Result<(), Memory>
    ensures { OnOk result (out.new ≡ out.old ++ name_of types.now code) }
{
    if code == 0 {
        return Ok(());
    }
    match types.get(code as usize - 1) {
        Some(t) => out.append(t.name.as_slice()),
        None => Ok(()),
    }
}

fn put_parent(out: &mut Bytes, types: &[SegType], parent: Option<u8>) -> Result<(), Memory>
    ensures { OnOk result (out.new ≡ out.old ++ parent_name types.now parent) }
{
    match parent {
        Some(code) => put_name(out, types, code),
        None => out.append(b"0"),
    }
}

fn put_twin_place(out: &mut Bytes, first: bool) -> Result<(), Memory>
    ensures { OnOk result (out.new ≡ out.old ++ twin_place first) }
{
    if first {
        out.append(b"FIRST")
    } else {
        out.append(b"LAST")
    }
}

#[tactic(auto, unfolding(crate::specs::Dbd::segm_statement))]
fn put_segment(
    alloc: Global,
    statement: &mut Bytes,
    types: &[SegType],
    t: &SegType,
) -> Result<(), Memory>
    ensures { OnOk result (statement.new ≡ statement.old ++ segm_statement types.now t.now) }
{
    statement.append(b"SEGM NAME=")?;
    statement.append(t.name.as_slice())?;
    statement.append(b",PARENT=")?;
    put_parent(statement, types, t.parent)?;
    statement.append(b",BYTES=")?;
    put_number(alloc, statement, t.bytes as u32)?;
    statement.append(b",RULES=(,")?;
    put_twin_place(statement, t.first)?;
    statement.append(b"),DSGROUP=")?;
    statement.push(t.letter)
}

/// The statements of a type: its SEGM, its fields, and the indexes over it.
#[tactic(auto, unfolding(crate::specs::Dbd::type_text))]
pub fn put_type(
    alloc: Global,
    out: &mut Bytes,
    types: &[SegType],
    indexes: &[IndexDef],
    code: u8,
    t: &SegType,
) -> Result<(), Memory>
    ensures { OnOk result (out.new ≡ out.old ++ type_text types.now indexes.now code t.now) }
{
    let mut statement = Bytes::new(alloc);
    put_segment(alloc, &mut statement, types, t)?;
    put_wrapped(out, statement.as_slice())?;
    put_fields(alloc, out, t.key, t.fields.as_slice())?;
    put_indexes(alloc, out, types, code, indexes)
}
