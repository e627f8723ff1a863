// Databases of the tests: their schemas, of texts, and their elements.
use crate::Elements;
use dbd_reader::read_dbd;
use hal_base::{Bytes, Ilk, Memory};
use hal_schema::{RawSchema, Schema};
use partition_reader::read_partitions;
use position_state::{Anchor, Spot};
use std::alloc::Global;

/// The schema that two texts say, none where they break a rule.
pub fn schema_of(alloc: Global, dbd: &str, parts: &str) -> Option<Schema> {
    if dbd.len() > 10_000 {
        return None;
    }
    let Ok((dbd, _)) = read_dbd(alloc, dbd.as_bytes()) else {
        return None;
    };
    let Ok(parts) = read_partitions(alloc, parts.as_bytes()) else {
        return None;
    };
    match Schema::build(alloc, RawSchema { dbd, parts }) {
        Ok(schema) => Some(schema),
        Err(_) => None,
    }
}

/// An element: the code of its type, its level, its key and its content.
pub type Given = (u8, u8, &'static str, &'static str);

/// The elements that are given, in their order.
pub fn given(alloc: Global, schema: Schema, rows: &[Given]) -> Result<Elements, Memory> {
    let mut elements = Elements::new(alloc, schema);
    let mut root: &[u8] = b"";
    for (place, (code, level, key, content)) in rows.iter().enumerate() {
        if *level == 1 {
            root = key.as_bytes();
        }
        let at = place_of(alloc, place as u64, root)?;
        elements.push(spot(
            alloc,
            at,
            (*code, *level),
            key.as_bytes(),
            content.as_bytes(),
        )?)?;
    }
    Ok(elements)
}

/// The place that so many elements stand before, in the record of a root.
pub fn place_of(alloc: Global, place: u64, root: &[u8]) -> Result<Anchor, Memory> {
    Ok(Anchor::At {
        name: Ilk {
            addr: (place % 1_000_000) as u32 * 16,
            part: 1,
            number: 1,
        },
        root: Bytes::from_slice(alloc, root)?,
        entry: None,
    })
}

fn spot(
    alloc: Global,
    at: Anchor,
    kind: (u8, u8),
    key: &[u8],
    content: &[u8],
) -> Result<Spot, Memory> {
    let (code, level) = kind;
    Ok(Spot {
        at,
        code,
        level,
        key: Bytes::from_slice(alloc, key)?,
        content: Bytes::from_slice(alloc, content)?,
    })
}

/// One element of each of so many types, each below the one before, of one byte.
pub fn deep(alloc: Global, schema: Schema, levels: u8) -> Result<Elements, Memory> {
    let mut elements = Elements::new(alloc, schema);
    for level in 1..levels.saturating_add(1) {
        let at = place_of(alloc, u64::from(level), b"a")?;
        elements.push(spot(alloc, at, (level, level), b"a", b"a")?)?;
    }
    Ok(elements)
}

/// So many records, each a root with a key of three digits, one element of each of the second and the third type on a
/// path below it, and another one of the second.
pub fn many(alloc: Global, schema: Schema, records: u16) -> Result<Elements, Memory> {
    let mut elements = Elements::new(alloc, schema);
    for record in 0..records {
        let place = u64::from(record) * 4;
        let key = digits(record);
        let root = key.as_slice();
        let at = place_of(alloc, place, root)?;
        elements.push(spot(
            alloc,
            at,
            (1, 1),
            root,
            &[key[0], key[1], key[2], b'a', b'a', b' ', b' ', b' '],
        )?)?;
        let at = place_of(alloc, place + 1, root)?;
        elements.push(spot(alloc, at, (2, 2), root, b"01xx")?)?;
        let at = place_of(alloc, place + 2, root)?;
        elements.push(spot(alloc, at, (3, 3), root, b"g1")?)?;
        let at = place_of(alloc, place + 3, root)?;
        elements.push(spot(alloc, at, (2, 2), root, b"02yy")?)?;
    }
    Ok(elements)
}

/// A root with so many elements of the second type below it, and a root behind them.
pub fn wide(alloc: Global, schema: Schema, twins: u16) -> Result<Elements, Memory> {
    let mut elements = Elements::new(alloc, schema);
    let at = place_of(alloc, 0, b"000")?;
    elements.push(spot(alloc, at, (1, 1), b"000", b"000aa   ")?)?;
    for twin in 0..twins {
        let at = place_of(alloc, u64::from(twin) + 1, b"000")?;
        elements.push(spot(alloc, at, (2, 2), b"00001", b"01xx")?)?;
    }
    let at = place_of(alloc, u64::from(twins) + 1, b"001")?;
    elements.push(spot(alloc, at, (1, 1), b"001", b"001aa   ")?)?;
    Ok(elements)
}

/// The last three digits of a number.
fn digits(number: u16) -> [u8; 3] {
    [
        b'0' + (number / 100 % 10) as u8,
        b'0' + (number / 10 % 10) as u8,
        b'0' + (number % 10) as u8,
    ]
}
