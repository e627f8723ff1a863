ghost use Rattle.std.specs.Prelude.{◌≡◌, IfOk, IsTrue, [], ◌∷◌, map, codes};
ghost use Rattle.hal_base.specs.Name.{is_name, upper};
ghost use Rattle.hal_schema.specs.First.{first_schema, first_types, first_parts};

use crate::{Field, KeyField, PartDef, Schema, SegType};
use hal_base::{Bytes, List, Memory, Name8};
use std::alloc::Global;

/// The schema of a database of one segment type R and one partition P1, above whose high key `~~~` no
/// readable key stands.
pub fn first_schema(alloc: Global) -> Result<Schema, Memory>
    ensures { IfOk result (λ schema. schema ≡ first_schema) }
{
    Ok(Schema {
        name: name_of(b"KDB"),
        phdam: false,
        rm: None,
        anch: 1,
        rbn: 1,
        types: one_type(alloc)?,
        indexes: List::new(alloc),
        parts: one_part(alloc)?,
        blocks: 40,
    })
}

fn name_of(text: &[u8]) -> Name8
    requires { IsTrue (is_name (map upper text.now)) }
    ensures { result ≡ map upper text.now }
{
    match Name8::read(text) {
        Some(name) => name,
        None => unreachable!(),
    }
}

fn one_type(alloc: Global) -> Result<List<SegType>, Memory>
    ensures { IfOk result (λ types. types ≡ first_types) }
{
    let mut fields = List::new(alloc);
    fields.push(Field {
        name: name_of(b"K"),
        start: 1,
        bytes: 3,
    })?;
    fields.push(Field {
        name: name_of(b"V"),
        start: 4,
        bytes: 2,
    })?;
    let mut types = List::new(alloc);
    types.push(SegType {
        name: name_of(b"R"),
        parent: None,
        bytes: 5,
        key: Some(KeyField {
            start: 1,
            bytes: 3,
            unique: true,
        }),
        first: false,
        letter: b'A',
        fields,
    })?;
    Ok(types)
}

fn one_part(alloc: Global) -> Result<List<PartDef>, Memory>
    ensures { IfOk result (λ parts. parts ≡ first_parts) }
{
    let mut parts = List::new(alloc);
    parts.push(PartDef {
        name: name_of(b"P1"),
        number: 1,
        high: Bytes::from_slice(alloc, b"~~~")?,
        anchors: 1,
        fbff: 0,
        fspf: 0,
    })?;
    Ok(parts)
}
