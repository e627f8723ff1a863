// Definitions as they would be read, sound ones and broken ones.
use hal_base::{Bytes, List, Name8};
use hal_schema::{
    RawDbd, RawField, RawIndex, RawPart, RawParts, RawSchema, RawType, Schema, SchemaFault,
};
use std::alloc::Global;
use std::test::Fail;

/// A FIELD: its segment, name, START, BYTES, sequence and line; none where it has no segment.
pub(crate) type FieldRow = (&'static str, &'static str, u32, u32, u8, u32);

/// A SEGM: name, parent or nothing, BYTES, DSGROUP, line.
pub(crate) type TypeRow = (&'static str, &'static str, u32, u8, u32);

/// An LCHILD and its XDFLD: database, XDFLD, target, source, and a SRCH and two SUBSEQ names or nothing.
pub(crate) type IndexRow = (
    &'static str,
    &'static str,
    &'static str,
    &'static str,
    &'static str,
    &'static str,
    &'static str,
);

/// A partition: name, number, high key, fbff, fspf.
pub(crate) type PartRow = (&'static str, u32, &'static str, u32, u32);

/// The rule, whether it is said of a partition, and its line or place.
pub(crate) type Said = (u8, bool, u32);

pub(crate) const SOUND: Said = (0, false, 0);

pub(crate) const R: TypeRow = ("R", "", 5, b'A', 2);

pub(crate) const C: TypeRow = ("C", "R", 4, b'A', 5);

pub(crate) const K: FieldRow = ("R", "K", 1, 3, 1, 3);

pub(crate) const V: FieldRow = ("R", "V", 4, 2, 0, 4);

pub(crate) const CK: FieldRow = ("C", "CK", 1, 2, 2, 6);

pub(crate) const NONE: FieldRow = ("", "", 0, 0, 0, 0);

pub(crate) const P1: PartRow = ("P1", 1, "999", 0, 0);

pub(crate) const P2: PartRow = ("P2", 2, "500", 0, 0);

fn name(text: &str) -> Result<Name8, Fail> {
    match Name8::read(text.as_bytes()) {
        Some(name) => Ok(name),
        None => Ok(Name8::read_portion(text.as_bytes()).ok_or("a name")?),
    }
}

fn add_name(names: &mut List<Name8>, text: &str) -> Result<(), Fail> {
    if !text.is_empty() {
        names.push(name(text)?)?;
    }
    Ok(())
}

fn raw_field(row: FieldRow) -> Result<RawField, Fail> {
    let (_, field, start, bytes, seq, line) = row;
    Ok(RawField {
        name: name(field)?,
        start,
        bytes,
        seq,
        line,
    })
}

fn raw_type(alloc: Global, row: TypeRow) -> Result<RawType, Fail> {
    let (segment, parent, bytes, letter, line) = row;
    Ok(RawType {
        name: name(segment)?,
        parent: if parent.is_empty() {
            None
        } else {
            Some(name(parent)?)
        },
        bytes,
        first: segment == "U",
        letter,
        fields: List::new(alloc),
        line,
    })
}

fn type_with(alloc: Global, row: TypeRow, fields: &[FieldRow]) -> Result<RawType, Fail> {
    let mut raw = raw_type(alloc, row)?;
    for field in fields {
        if field.0 == row.0 {
            raw.fields.push(raw_field(*field)?)?;
        }
    }
    Ok(raw)
}

fn raw_index(alloc: Global, row: IndexRow, line: u32) -> Result<RawIndex, Fail> {
    let (database, xdfld, target, source, srch, first, second) = row;
    let mut search = List::new(alloc);
    add_name(&mut search, srch)?;
    let mut subseq = List::new(alloc);
    add_name(&mut subseq, first)?;
    add_name(&mut subseq, second)?;
    Ok(RawIndex {
        seg: name("VX")?,
        name: name(database)?,
        xdfld: name(xdfld)?,
        target: name(target)?,
        source: name(source)?,
        search,
        subseq,
        line,
    })
}

fn raw_part(alloc: Global, row: PartRow, place: u32) -> Result<RawPart, Fail> {
    let (part, number, high, fbff, fspf) = row;
    Ok(RawPart {
        name: name(part)?,
        number,
        high: Bytes::from_slice(alloc, high.as_bytes())?,
        anchors: None,
        fbff,
        fspf,
        place,
    })
}

/// A PHIDAM database of these types, and two partitions.
pub(crate) fn of_types(
    alloc: Global,
    rows: &[TypeRow],
    fields: &[FieldRow],
) -> Result<RawSchema, Fail> {
    let mut types = List::new(alloc);
    for row in rows {
        types.push(type_with(alloc, *row, fields)?)?;
    }
    Ok(RawSchema {
        dbd: RawDbd {
            name: name("KDB")?,
            phdam: false,
            rm: Some(name("DFSHDC40")?),
            anch: 2,
            rbn: 1000,
            types,
            indexes: List::new(alloc),
        },
        parts: two_parts(alloc, P1, P2)?,
    })
}

pub(crate) fn two_parts(alloc: Global, first: PartRow, second: PartRow) -> Result<RawParts, Fail> {
    let mut parts = List::new(alloc);
    parts.push(raw_part(alloc, first, 1)?)?;
    parts.push(raw_part(alloc, second, 2)?)?;
    Ok(RawParts { blocks: 40, parts })
}

/// A root alone.
pub(crate) fn of_root(alloc: Global) -> Result<RawSchema, Fail> {
    of_types(alloc, &[R], &[K, V])
}

/// A PHDAM database of one partition, whose blocks have so many anchor points each where it names none.
pub(crate) fn of_anchors(
    alloc: Global,
    anchors: Option<u32>,
    anch: u32,
) -> Result<RawSchema, Fail> {
    let mut raw = of_root(alloc)?;
    raw.dbd.phdam = true;
    raw.dbd.anch = anch;
    let mut part = raw_part(alloc, P1, 1)?;
    part.anchors = anchors;
    let mut parts = List::new(alloc);
    parts.push(part)?;
    raw.parts.parts = parts;
    Ok(raw)
}

/// A root and a type below it whose concatenated key has 5 bytes, and two indexes.
pub(crate) fn of_indexes(alloc: Global, row: IndexRow) -> Result<RawSchema, Fail> {
    let within = ("C", "/CK1", 1, 5, 0, 7);
    let beyond = ("C", "/CK2", 4, 3, 0, 8);
    let mut raw = of_types(alloc, &[R, C], &[K, V, CK, within, beyond])?;
    let other = ("ZDB", "Z", "C", "C", "CK", "", "");
    add_index(alloc, &mut raw, other, 9)?;
    add_index(alloc, &mut raw, row, 10)?;
    Ok(raw)
}

pub(crate) fn add_index(
    alloc: Global,
    raw: &mut RawSchema,
    row: IndexRow,
    line: u32,
) -> Result<(), Fail> {
    raw.dbd.indexes.push(raw_index(alloc, row, line)?)?;
    Ok(())
}

fn letters(n: u32) -> [u8; 3] {
    [b'A', b'A' + (n / 26 % 26) as u8, b'A' + (n % 26) as u8]
}

fn numbered(n: u32) -> Result<Name8, Fail> {
    Ok(Name8::read(&letters(n)).ok_or("a name")?)
}

/// A root and types right below it, on lines from 10.
pub(crate) fn of_children(alloc: Global, count: u32) -> Result<RawSchema, Fail> {
    let mut raw = of_root(alloc)?;
    for n in 0..count {
        let mut t = raw_type(alloc, C)?;
        t.name = numbered(n)?;
        t.line = n.wrapping_add(10);
        raw.dbd.types.push(t)?;
    }
    Ok(raw)
}

/// A root and types each below the one before, on lines from 10.
pub(crate) fn of_chain(alloc: Global, count: u32) -> Result<RawSchema, Fail> {
    let mut raw = of_root(alloc)?;
    let mut parent = name("R")?;
    for n in 0..count {
        let mut t = raw_type(alloc, C)?;
        t.name = numbered(n)?;
        t.parent = Some(parent);
        t.line = n.wrapping_add(10);
        raw.dbd.types.push(t)?;
        parent = numbered(n)?;
    }
    Ok(raw)
}

/// A root with a field for each line from 3 on.
pub(crate) fn of_fields(alloc: Global, count: u32) -> Result<RawSchema, Fail> {
    let mut root = type_with(alloc, R, &[K])?;
    for n in 1..count {
        let mut field = raw_field(V)?;
        field.name = numbered(n)?;
        field.line = n.wrapping_add(3);
        root.fields.push(field)?;
    }
    let mut raw = of_root(alloc)?;
    let mut types = List::new(alloc);
    types.push(root)?;
    raw.dbd.types = types;
    Ok(raw)
}

/// Indexes of the root, on lines from 10 on, or from 100 back.
pub(crate) fn of_many(alloc: Global, count: u32, back: bool) -> Result<RawSchema, Fail> {
    let mut raw = of_root(alloc)?;
    for n in 0..count {
        let mut index = raw_index(alloc, ("VDB", "XV", "R", "R", "V", "", ""), 1)?;
        index.name = numbered(n)?;
        index.xdfld = numbered(n)?;
        index.line = if back {
            100u32.wrapping_sub(n)
        } else {
            n.wrapping_add(10)
        };
        raw.dbd.indexes.push(index)?;
    }
    Ok(raw)
}

/// Partitions at places from 1.
pub(crate) fn of_parts(alloc: Global, count: u32) -> Result<RawSchema, Fail> {
    let mut parts = List::new(alloc);
    for n in 0..count {
        let place = n.wrapping_add(1);
        let mut part = raw_part(alloc, P1, place)?;
        part.name = numbered(n)?;
        part.number = place;
        part.high = Bytes::from_slice(alloc, &letters(n))?;
        parts.push(part)?;
    }
    let mut raw = of_root(alloc)?;
    raw.parts.parts = parts;
    Ok(raw)
}

pub(crate) fn built(alloc: Global, raw: RawSchema) -> Result<Schema, SchemaFault> {
    if raw.dbd.types.is_empty() {
        return Err(SchemaFault::Memory);
    }
    if !raw.dbd.is_named() {
        return Err(SchemaFault::Memory);
    }
    if !raw.parts.are_named() {
        return Err(SchemaFault::Memory);
    }
    Schema::build(alloc, raw)
}

/// What a definition is refused for, zeros where it is sound.
pub(crate) fn said(alloc: Global, raw: RawSchema) -> Result<Said, Fail> {
    match built(alloc, raw) {
        Ok(_) => Ok(SOUND),
        Err(SchemaFault::Rule { rule, part, line }) => Ok((rule, part, line)),
        Err(SchemaFault::Memory) => Err(Fail::from("memory")),
    }
}
