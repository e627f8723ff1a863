// The list of the tests, and sessions over it.
ghost use Rattle.std.specs.Prelude.{◌≡◌, ◌∷◌, IfOk, IsTrue, [], None, Some, map};
ghost use Rattle.hal_base.specs.Name.{is_name, upper};
ghost use Rattle.hal_schema.specs.Forest.{is_forest};
ghost use Rattle.position_state.specs.Lawful.{IsLawful, Stands};
ghost use Rattle.session_rows.specs.Example.{deletion, insertion_of_g, name_at, one_part, place, replacement, row, standing, three_levels, three_types, two_records};

use hal_base::{Bytes, Ilk, List, Memory, Name8};
use hal_schema::{Field, KeyField, PartDef, Row, Schema, SegType};
use position_state::{Anchor, Change, ListWalk, Session, WalkFault};
use std::alloc::Global;

fn name_of(text: &[u8]) -> Name8
    requires { IsTrue (is_name (map upper text.now)) }
    ensures { result ≡ map upper text.now }
{
    match Name8::read(text) {
        Some(name) => name,
        None => unreachable!(),
    }
}

fn fields(alloc: Global, name: &[u8], bytes: u16) -> Result<List<Field>, Memory>
    requires { IsTrue (is_name (map upper name.now)) }
    ensures { IfOk result (λ fields. fields ≡ record { name = map upper name.now; start = 1; bytes = bytes } ∷ []) }
{
    let mut fields = List::new(alloc);
    fields.push(Field {
        name: name_of(name),
        start: 1,
        bytes,
    })?;
    Ok(fields)
}

fn types(alloc: Global) -> Result<List<SegType>, Memory>
    ensures { IfOk result (λ types. types ≡ three_types) }
{
    let mut types = List::new(alloc);
    types.push(SegType {
        name: name_of(b"R"),
        parent: None,
        bytes: 5,
        key: Some(KeyField {
            start: 1,
            bytes: 3,
            unique: true,
        }),
        first: false,
        letter: b'A',
        fields: fields(alloc, b"K", 3)?,
    })?;
    types.push(SegType {
        name: name_of(b"C"),
        parent: Some(1),
        bytes: 4,
        key: Some(KeyField {
            start: 1,
            bytes: 2,
            unique: false,
        }),
        first: false,
        letter: b'A',
        fields: fields(alloc, b"CK", 2)?,
    })?;
    types.push(SegType {
        name: name_of(b"G"),
        parent: Some(2),
        bytes: 2,
        key: None,
        first: false,
        letter: b'B',
        fields: List::new(alloc),
    })?;
    types.push(SegType {
        name: name_of(b"U"),
        parent: Some(1),
        bytes: 1,
        key: None,
        first: true,
        letter: b'B',
        fields: List::new(alloc),
    })?;
    Ok(types)
}

fn parts(alloc: Global) -> Result<List<PartDef>, Memory>
    ensures { IfOk result (λ parts. parts ≡ one_part) }
{
    let mut parts = List::new(alloc);
    parts.push(PartDef {
        name: name_of(b"P1"),
        number: 1,
        high: Bytes::from_slice(alloc, b"999")?,
        anchors: 1,
        fbff: 0,
        fspf: 0,
    })?;
    Ok(parts)
}

fn three_levels(alloc: Global) -> Result<Schema, Memory>
    ensures { IfOk result (λ schema. schema ≡ three_levels) }
{
    Ok(Schema {
        name: name_of(b"KDB"),
        phdam: false,
        rm: None,
        anch: 1,
        rbn: 1,
        types: types(alloc)?,
        indexes: List::new(alloc),
        parts: parts(alloc)?,
        blocks: 40,
    })
}

fn name_at(addr: u32) -> Ilk
    ensures { result ≡ name_at addr }
{
    Ilk {
        addr,
        part: 1,
        number: 1,
    }
}

fn row(
    alloc: Global,
    addr: u32,
    code: u8,
    parent: Option<Ilk>,
    content: &[u8],
) -> Result<Row, Memory>
    ensures { IfOk result (λ made. made ≡ row addr code parent content.now) }
{
    Ok(Row {
        name: name_at(addr),
        code,
        parent,
        content: Bytes::from_slice(alloc, content)?,
    })
}

fn two_records(alloc: Global) -> Result<List<Row>, Memory>
    ensures { IfOk result (λ rows. rows ≡ two_records) }
{
    let mut rows = List::new(alloc);
    rows.push(row(alloc, 16, 1, None, b"001aa")?)?;
    rows.push(row(alloc, 32, 2, Some(name_at(16)), b"01xx")?)?;
    rows.push(row(alloc, 48, 3, Some(name_at(32)), b"g1")?)?;
    rows.push(row(alloc, 64, 2, Some(name_at(16)), b"01yy")?)?;
    rows.push(row(alloc, 80, 4, Some(name_at(16)), b"q")?)?;
    rows.push(row(alloc, 96, 1, None, b"002bb")?)?;
    Ok(rows)
}

/// The place of a row under the root of a key.
pub fn place(alloc: Global, addr: u32, root: &[u8]) -> Result<Anchor, Memory>
    ensures { IfOk result (λ at. at ≡ place addr root.now) }
{
    Ok(Anchor::At {
        name: name_at(addr),
        root: Bytes::from_slice(alloc, root)?,
        entry: None,
    })
}

/// A session at a place, with what it holds and its parentage.
pub fn standing(alloc: Global, at: Anchor, held: Option<Anchor>, parent: Option<Anchor>) -> Session
    ensures { result ≡ standing at held parent }
{
    Session {
        options: Bytes::new(alloc),
        index: None,
        anchor: at,
        held,
        parent,
    }
}

/// The deletion of a row under the root of a key.
pub fn deletion(alloc: Global, addr: u32, root: &[u8]) -> Result<Change, Memory>
    ensures { IfOk result (λ change. change ≡ deletion addr root.now) }
{
    Ok(Change::Delete {
        name: name_at(addr),
        root: Bytes::from_slice(alloc, root)?,
    })
}

/// Other content for a row under the root of a key.
pub fn replacement(alloc: Global, addr: u32, root: &[u8], content: &[u8]) -> Result<Change, Memory>
    ensures { IfOk result (λ change. change ≡ replacement addr root.now content.now) }
{
    Ok(Change::Replace {
        name: name_at(addr),
        root: Bytes::from_slice(alloc, root)?,
        content: Bytes::from_slice(alloc, content)?,
    })
}

/// A new G behind the one that there is.
pub fn insertion_of_g(alloc: Global) -> Result<Change, Memory>
    ensures { IfOk result (λ change. change ≡ insertion_of_g) }
{
    Ok(Change::Insert {
        parent: Some(name_at(32)),
        root: Bytes::from_slice(alloc, b"001")?,
        code: 3,
        content: Bytes::from_slice(alloc, b"g2")?,
    })
}

/// What is left of a session over the two records, and after how many looks.
pub fn left(alloc: Global, session: &Session, change: &Change) -> Result<(Session, u64), WalkFault>
    requires plain { session.now.index ≡ None }
    requires stands { Stands three_levels two_records session.now }
    requires lawful { IsLawful three_levels two_records change.now }
{
    let schema = three_levels(alloc)?;
    let rows = two_records(alloc)?;
    let mut walk = ListWalk::new(alloc, &schema, rows);
    let left = session.after_change(&schema, change, &mut walk)?;
    Ok((left, walk.looks()))
}
