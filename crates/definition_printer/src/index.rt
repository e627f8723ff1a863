// LCHILD and XDFLD statements.
ghost use Rattle.std.specs.Prelude.{◌≡◌, ◌++◌, OnOk, flat_map};
ghost use Rattle.definition_printer.specs.Wrapped.{wrapped};
ghost use Rattle.definition_printer.specs.Dbd.{child_names, lchild_statement, behind_comma, name_list, subseq_operand, indexed_field, xdfld_statement, index_text, text_over};

use crate::segment::put_name;
use crate::wrap::put_wrapped;
use hal_base::{Bytes, Memory};
use hal_schema::{Field, IndexDef, SegType};
use std::alloc::Global;

#[tactic(auto, unfolding(crate::specs::Dbd::child_names))]
fn put_child_names(statement: &mut Bytes, i: &IndexDef) -> Result<(), Memory>
    ensures { OnOk result (statement.new ≡ statement.old ++ child_names i.now) }
{
    statement.append(i.seg.as_slice())?;
    statement.append(b",")?;
    statement.append(i.name.as_slice())?;
    statement.append(b"),PTR=INDX")
}

fn put_more_names(out: &mut Bytes, fields: &[Field]) -> Result<(), Memory>
    ensures { OnOk result (out.new ≡ out.old ++ flat_map behind_comma fields.now) }
{
    for f in fields {
        out.append(b",")?;
        out.append(f.name.as_slice())?;
    }
    Ok(())
}

/// The names of fields, with commas between.
fn put_names(out: &mut Bytes, fields: &[Field]) -> Result<(), Memory>
    ensures { OnOk result (out.new ≡ out.old ++ name_list fields.now) }
{
    let [first, more @ ..] = fields else {
        return Ok(());
    };
    out.append(first.name.as_slice())?;
    put_more_names(out, more)
}

fn put_subseq(out: &mut Bytes, fields: &[Field]) -> Result<(), Memory>
    ensures { OnOk result (out.new ≡ out.old ++ subseq_operand fields.now) }
{
    if fields.is_empty() {
        return Ok(());
    }
    out.append(b",SUBSEQ=(")?;
    put_names(out, fields)?;
    out.append(b")")
}

#[tactic(auto, unfolding(crate::specs::Dbd::indexed_field))]
fn put_indexed_field(statement: &mut Bytes, types: &[SegType], i: &IndexDef) -> Result<(), Memory>
    ensures { OnOk result (statement.new ≡ statement.old ++ indexed_field types.now i.now) }
{
    statement.append(i.xdfld.as_slice())?;
    statement.append(b",SEGMENT=")?;
    put_name(statement, types, i.source)?;
    statement.append(b",SRCH=(")?;
    put_names(statement, i.search.as_slice())?;
    statement.append(b")")?;
    put_subseq(statement, i.subseq.as_slice())
}

fn put_child(alloc: Global, out: &mut Bytes, i: &IndexDef) -> Result<(), Memory>
    ensures { OnOk result (out.new ≡ out.old ++ wrapped (lchild_statement i.now)) }
{
    let mut statement = Bytes::from_slice(alloc, b"LCHILD NAME=(")?;
    put_child_names(&mut statement, i)?;
    put_wrapped(out, statement.as_slice())
}

fn put_field(alloc: Global, out: &mut Bytes, types: &[SegType], i: &IndexDef) -> Result<(), Memory>
    ensures { OnOk result (out.new ≡ out.old ++ wrapped (xdfld_statement types.now i.now)) }
{
    let mut statement = Bytes::from_slice(alloc, b"XDFLD NAME=")?;
    put_indexed_field(&mut statement, types, i)?;
    put_wrapped(out, statement.as_slice())
}

fn put_index(alloc: Global, out: &mut Bytes, types: &[SegType], i: &IndexDef) -> Result<(), Memory>
    ensures { OnOk result (out.new ≡ out.old ++ index_text types.now i.now) }
{
    put_child(alloc, out, i)?;
    put_field(alloc, out, types, i)
}

fn put_over(
    alloc: Global,
    out: &mut Bytes,
    types: &[SegType],
    code: u8,
    i: &IndexDef,
) -> Result<(), Memory>
    ensures { OnOk result (out.new ≡ out.old ++ text_over types.now code i.now) }
{
    if i.target == code {
        put_index(alloc, out, types, i)
    } else {
        Ok(())
    }
}

/// The statements of the indexes over a type.
pub fn put_indexes(
    alloc: Global,
    out: &mut Bytes,
    types: &[SegType],
    code: u8,
    indexes: &[IndexDef],
) -> Result<(), Memory>
    ensures { OnOk result (out.new ≡ out.old ++ flat_map (text_over types.now code) indexes.now) }
{
    for i in indexes {
        put_over(alloc, out, types, code, i)?;
    }
    Ok(())
}
