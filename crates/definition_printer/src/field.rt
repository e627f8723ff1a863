// FIELD statements.
ghost use Rattle.std.specs.Prelude.{◌≡◌, ◌++◌, IfOk, OnOk, flat_map};
ghost use Rattle.hal_schema.specs.Lawful.{is_key_field, is_key_portion};
ghost use Rattle.definition_printer.specs.Wrapped.{wrapped};
ghost use Rattle.definition_printer.specs.Dbd.{field_statement, kind, sequence_name, plain_field, keyed_fields, fields_text};

use crate::wrap::put_wrapped;
use hal_base::{Bytes, Memory, Name8, put_number};
use hal_schema::{Field, KeyField};
use std::alloc::Global;

fn is_key_portion(name: Name8) -> bool
    ensures { result ≡ is_key_portion name }
{
    matches!(name.as_slice(), [b'/', ..])
}

fn is_key_field(key: KeyField, f: &Field) -> bool
    ensures { result ≡ is_key_field key f.now }
{
    f.start == key.start && f.bytes == key.bytes && !is_key_portion(f.name)
}

fn put_kind(out: &mut Bytes, unique: bool) -> Result<(), Memory>
    ensures { OnOk result (out.new ≡ out.old ++ kind unique) }
{
    if unique {
        out.append(b",SEQ,U)")
    } else {
        out.append(b",SEQ,M)")
    }
}

#[tactic(auto, unfolding(crate::specs::Dbd::sequence_name))]
fn sequence_name(alloc: Global, key: KeyField, name: Name8) -> Result<Bytes, Memory>
    ensures { IfOk result (λ bytes. bytes ≡ sequence_name key name) }
{
    let mut bytes = Bytes::from_slice(alloc, b"(")?;
    bytes.append(name.as_slice())?;
    put_kind(&mut bytes, key.unique)?;
    Ok(bytes)
}

#[tactic(auto, unfolding(crate::specs::Dbd::field_statement))]
fn put_field(alloc: Global, out: &mut Bytes, name: &[u8], f: &Field) -> Result<(), Memory>
    ensures { OnOk result (out.new ≡ out.old ++ wrapped (field_statement name.now f.now)) }
{
    let mut statement = Bytes::from_slice(alloc, b"FIELD NAME=")?;
    statement.append(name)?;
    statement.append(b",BYTES=")?;
    put_number(alloc, &mut statement, f.bytes as u32)?;
    statement.append(b",START=")?;
    put_number(alloc, &mut statement, f.start as u32)?;
    statement.append(b",TYPE=C")?;
    put_wrapped(out, statement.as_slice())
}

fn put_sequence_field(
    alloc: Global,
    out: &mut Bytes,
    key: KeyField,
    f: &Field,
) -> Result<(), Memory>
    ensures { OnOk result (out.new ≡ out.old ++ wrapped (field_statement (sequence_name key f.now.name) f.now)) }
{
    let name = sequence_name(alloc, key, f.name)?;
    put_field(alloc, out, name.as_slice(), f)
}

fn put_plain_fields(alloc: Global, out: &mut Bytes, fields: &[Field]) -> Result<(), Memory>
    ensures { OnOk result (out.new ≡ out.old ++ flat_map plain_field fields.now) }
{
    for f in fields {
        put_field(alloc, out, f.name.as_slice(), f)?;
    }
    Ok(())
}

fn put_keyed_fields(
    alloc: Global,
    out: &mut Bytes,
    key: KeyField,
    fields: &[Field],
) -> Result<(), Memory>
    ensures { OnOk result (out.new ≡ out.old ++ keyed_fields key fields.now) }
{
    let mut left = fields;
    'fields: while let [f, behind @ ..] = left {
        if is_key_field(key, f) {
            put_sequence_field(alloc, out, key, f)?;
            return put_plain_fields(alloc, out, behind);
        }
        put_field(alloc, out, f.name.as_slice(), f)?;
        left = behind;
    }
    Ok(())
}

pub fn put_fields(
    alloc: Global,
    out: &mut Bytes,
    key: Option<KeyField>,
    fields: &[Field],
) -> Result<(), Memory>
    ensures { OnOk result (out.new ≡ out.old ++ fields_text key fields.now) }
{
    match key {
        Some(key) => put_keyed_fields(alloc, out, key, fields),
        None => put_plain_fields(alloc, out, fields),
    }
}
