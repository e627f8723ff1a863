// The sample database KDB, over which scripts run while no volume is opened.
ghost use Rattle.std.specs.Prelude.{◌≡◌, ◌∷◌, [], IfOk, IsTrue, None, Some, codes, false, map, true};
ghost use Rattle.std.specs.Option.{option_map};
ghost use Rattle.hal_base.specs.Name.{is_name, upper};
ghost use Rattle.hal_desk.specs.Kdb.{field, kdb, kdb_parts, kdb_types, part, seg_type};

use hal_base::{Bytes, List, Memory, Name8};
use hal_schema::{Field, KeyField, PartDef, Schema, SegType};
use std::alloc::Global;

/// Segment types R, below it C and U, and G below C; partitions P1 up to `500` and P2 up to `999`.
pub fn kdb(alloc: Global) -> Result<Schema, Memory>
    ensures { IfOk result (λ schema. schema ≡ kdb) }
{
    Ok(Schema {
        name: name_of(b"KDB"),
        phdam: false,
        rm: None,
        anch: 1,
        rbn: 1,
        types: types(alloc)?,
        indexes: List::new(alloc),
        parts: parts(alloc)?,
        blocks: 40,
    })
}

fn name_of(text: &[u8]) -> Name8
    requires { IsTrue (is_name (map upper text.now)) }
    ensures { result ≡ map upper text.now }
{
    match Name8::read(text) {
        Some(name) => name,
        None => unreachable!(),
    }
}

fn types(alloc: Global) -> Result<List<SegType>, Memory>
    ensures { IfOk result (λ types. types ≡ kdb_types) }
{
    let mut types = List::new(alloc);
    types.push(root_type(alloc)?)?;
    types.push(keyed_type(alloc, b"C", b"CK", false)?)?;
    types.push(seg_type(b"G", Some(2), 2, None, false, List::new(alloc)))?;
    types.push(keyed_type(alloc, b"U", b"UK", true)?)?;
    Ok(types)
}

fn root_type(alloc: Global) -> Result<SegType, Memory>
    ensures { IfOk result (λ t. t ≡ seg_type (codes "R") None 5 (Some (3, true)) false (field (codes "K") 1 3 ∷ field (codes "V") 4 2 ∷ [])) }
{
    let mut fields = List::new(alloc);
    fields.push(field(b"K", 1, 3))?;
    fields.push(field(b"V", 4, 2))?;
    Ok(seg_type(b"R", None, 5, Some((3, true)), false, fields))
}

/// A child of the root of four bytes, in the order of its first two.
fn keyed_type(alloc: Global, name: &[u8], key: &[u8], first: bool) -> Result<SegType, Memory>
    requires named { IsTrue (is_name (map upper name.now)) }
    requires key_named { IsTrue (is_name (map upper key.now)) }
    ensures { IfOk result (λ t. t ≡ seg_type (map upper name.now) (Some 1) 4 (Some (2, false)) first (field (map upper key.now) 1 2 ∷ [])) }
{
    let mut fields = List::new(alloc);
    fields.push(field(key, 1, 2))?;
    Ok(seg_type(name, Some(1), 4, Some((2, false)), first, fields))
}

fn seg_type(
    name: &[u8],
    parent: Option<u8>,
    bytes: u16,
    key: Option<(u16, bool)>,
    first: bool,
    fields: List<Field>,
) -> SegType
    requires { IsTrue (is_name (map upper name.now)) }
    ensures { result ≡ seg_type (map upper name.now) parent bytes key first fields }
{
    SegType {
        name: name_of(name),
        parent,
        bytes,
        key: key_field(key),
        first,
        letter: b'A',
        fields,
    }
}

/// A sequence field at the begin, of so many bytes, unique or not.
fn key_field(key: Option<(u16, bool)>) -> Option<KeyField>
    ensures { result ≡ option_map (λ k. record { start = 1; bytes = k.0; unique = k.1 }) key }
{
    let (bytes, unique) = key?;
    Some(KeyField {
        start: 1,
        bytes,
        unique,
    })
}

fn field(name: &[u8], start: u16, bytes: u16) -> Field
    requires { IsTrue (is_name (map upper name.now)) }
    ensures { result ≡ field (map upper name.now) start bytes }
{
    Field {
        name: name_of(name),
        start,
        bytes,
    }
}

fn parts(alloc: Global) -> Result<List<PartDef>, Memory>
    ensures { IfOk result (λ parts. parts ≡ kdb_parts) }
{
    let mut parts = List::new(alloc);
    parts.push(part(alloc, b"P1", 1, b"500")?)?;
    parts.push(part(alloc, b"P2", 2, b"999")?)?;
    Ok(parts)
}

fn part(alloc: Global, name: &[u8], number: u16, high: &[u8]) -> Result<PartDef, Memory>
    requires { IsTrue (is_name (map upper name.now)) }
    ensures { IfOk result (λ p. p ≡ part (map upper name.now) number high.now) }
{
    Ok(PartDef {
        name: name_of(name),
        number,
        high: Bytes::from_slice(alloc, high)?,
        anchors: 1,
        fbff: 0,
        fspf: 0,
    })
}
