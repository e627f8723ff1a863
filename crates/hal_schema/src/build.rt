ghost use Rattle.std.specs.Prelude.{◌≡◌, ◌<◌, ◌≤◌, [], IfErr, IfOk, IsTrue, None, OnOk, length, map, nat_lt, option_and_then};
ghost use Rattle.std.specs.List.{list_all, prefix_len};
ghost use Rattle.std.specs.Ordering.{is_lt};
ghost use Rattle.hal_schema.specs.Faults.{IsFault};
ghost use Rattle.hal_schema.specs.Keys.{key_cmp};
ghost use Rattle.hal_schema.specs.Lawful.{factors_fit, field_fits, number_fits, part_is_stored};
ghost use Rattle.hal_schema.specs.Named.{dbd_is_named, parts_are_named};
ghost use Rattle.hal_schema.specs.Raw.{anchors_of, code_of, field_of, indexes_of, key_field, part_of, parts_of, seg_type, types_of};
ghost use Rattle.hal_schema.specs.Rules.{first_fault, sizes_broken, sizes_in};

use crate::built::built;
use crate::rules::{anch_of, code_of, index_of, rbn_of};
use crate::{
    Field, IndexDef, KeyField, PartDef, RawDbd, RawField, RawIndex, RawPart, RawSchema, RawType,
    Schema, SchemaFault, SegType,
};
use hal_base::{Key, List, Memory};
use std::alloc::Global;

impl Schema {
    ghost use Rattle.hal_schema.specs.Built.{IsSchemaOf};

    /// The schema that a definition says, where it keeps all rules; else the least rule that is broken, at the
    /// first item that breaks it. What the readers give has a type, and `is_named` and `are_named` hold of it. Items are the statements by their lines, then `blocks`, then the partitions by
    /// their places.
    pub fn build(alloc: Global, raw: RawSchema) -> Result<Schema, SchemaFault>
        requires some { 0 < length raw.dbd.types }
        requires named { IsTrue (dbd_is_named raw.dbd) }
        requires parts_named { IsTrue (parts_are_named raw.parts) }
        ensures kept { OnOk result (first_fault raw ≡ None) }
        ensures schema { IfOk result (IsSchemaOf raw) }
        ensures broken { IfErr result (IsFault (first_fault raw)) }
    {
        built(alloc, &raw)
    }
}

/// The types in the order of the definition.
pub(crate) fn build_types(alloc: Global, types: &[RawType]) -> Result<List<SegType>, Memory>
    requires few { length types.now ≤ 255 }
    requires sizes { sizes_broken types.now ≡ [] }
    ensures { IfOk result (λ list. list ≡ types_of types.now) }
{
    let mut list = List::new(alloc);
    for t in types {
        list.push(build_type(alloc, types, t)?)?;
    }
    Ok(list)
}

fn build_type(alloc: Global, types: &[RawType], t: &RawType) -> Result<SegType, Memory>
    requires few { length types.now ≤ 255 }
    requires sizes { sizes_in t.now ≡ [] }
    ensures { IfOk result (λ built. built ≡ seg_type types.now t.now) }
{
    let fields = t.fields.as_slice();
    Ok(SegType {
        name: t.name,
        parent: parent_in(types, t),
        bytes: t.bytes as u16,
        key: key_field(t.bytes, fields),
        first: t.first,
        letter: t.letter,
        fields: build_fields(alloc, t.bytes, fields)?,
    })
}

fn parent_in(types: &[RawType], t: &RawType) -> Option<u8>
    requires { length types.now ≤ 255 }
    ensures { result ≡ option_and_then (code_of types.now) t.now.parent }
{
    match t.parent {
        None => None,
        Some(name) => match code_of(types, name) {
            None => None,
            Some(code) => Some(code as u8),
        },
    }
}

fn key_field(bytes: u32, fields: &[RawField]) -> Option<KeyField>
    requires small { bytes ≤ 2000 }
    requires fit { IsTrue (list_all (λ f. field_fits bytes (field_of f)) fields.now) }
    ensures { result ≡ key_field fields.now }
{
    for f in fields {
        if f.seq > 0 {
            let field = build_field(bytes, f);
            return Some(KeyField {
                start: field.start,
                bytes: field.bytes,
                unique: f.seq == 1,
            });
        }
    }
    None
}

fn build_fields(alloc: Global, bytes: u32, fields: &[RawField]) -> Result<List<Field>, Memory>
    requires small { bytes ≤ 2000 }
    requires fit { IsTrue (list_all (λ f. field_fits bytes (field_of f)) fields.now) }
    ensures { IfOk result (λ list. list ≡ map field_of fields.now) }
{
    let mut list = List::new(alloc);
    for f in fields {
        list.push(build_field(bytes, f))?;
    }
    Ok(list)
}

fn build_field(bytes: u32, f: &RawField) -> Field
    requires small { bytes ≤ 2000 }
    requires fit { IsTrue (field_fits bytes (field_of f.now)) }
    ensures { result ≡ field_of f.now }
{
    Field {
        name: f.name,
        start: f.start as u16,
        bytes: f.bytes as u16,
    }
}

/// The indexes by the codes of their targets, under one target in raw order.
pub(crate) fn build_indexes(
    alloc: Global,
    types: &[SegType],
    indexes: &[RawIndex],
) -> Result<List<IndexDef>, Memory>
    requires { length types.now ≤ 255 }
    ensures { IfOk result (λ list. list ≡ indexes_of types.now indexes.now) }
{
    let mut list = List::new(alloc);
    let mut left = indexes.len();
    while left > 0 {
        left -= 1;
        if let Some(index) = index_of(alloc, types, &indexes[left])? {
            list.insert(targets_below(list.as_slice(), index.target), index)?;
        }
    }
    Ok(list)
}

fn targets_below(indexes: &[IndexDef], target: u8) -> usize
    ensures place { result ≡ prefix_len (λ i. nat_lt i.target target) indexes.now }
    ensures within { result ≤ length indexes.now }
{
    for (place, i) in indexes.iter().enumerate() {
        if i.target >= target {
            return place;
        }
    }
    indexes.len()
}

/// The partitions by their high keys.
pub(crate) fn build_parts(
    alloc: Global,
    dbd: &RawDbd,
    parts: &[RawPart],
) -> Result<List<PartDef>, Memory>
    requires fit { IsTrue (list_all (λ p. factors_fit dbd.now.phdam (part_of dbd.now p)) parts.now) }
    requires numbers { IsTrue (list_all (λ p. number_fits p.number) parts.now) }
    ensures same { IfOk result (λ list. list ≡ parts_of dbd.now parts.now) }
    ensures stored { IfOk result (λ list. IsTrue (list_all part_is_stored list)) }
{
    let mut list = List::new(alloc);
    let mut left = parts.len();
    while left > 0 {
        left -= 1;
        let part = build_part(alloc, dbd, &parts[left])?;
        list.insert(highs_below(list.as_slice(), part.high.as_slice()), part)?;
    }
    Ok(list)
}

fn highs_below(parts: &[PartDef], high: &[u8]) -> usize
    ensures place { result ≡ prefix_len (λ p. is_lt (key_cmp p.high high.now)) parts.now }
    ensures within { result ≤ length parts.now }
{
    for (place, p) in parts.iter().enumerate() {
        if !is_below(p, high) {
            return place;
        }
    }
    parts.len()
}

fn is_below(p: &PartDef, high: &[u8]) -> bool
    ensures { result ≡ is_lt (key_cmp p.now.high high.now) }
{
    p.high.as_slice().cmp(high).is_lt()
}

fn build_part(alloc: Global, dbd: &RawDbd, p: &RawPart) -> Result<PartDef, Memory>
    requires fit { IsTrue (factors_fit dbd.now.phdam (part_of dbd.now p.now)) }
    requires number { IsTrue (number_fits p.now.number) }
    ensures same { IfOk result (λ part. part ≡ part_of dbd.now p.now) }
    ensures stored { IfOk result (λ part. IsTrue (part_is_stored part)) }
{
    Ok(PartDef {
        name: p.name,
        number: p.number as u16,
        high: copied(alloc, p.high.as_slice())?,
        anchors: anchors_in(dbd, p),
        fbff: p.fbff as u8,
        fspf: p.fspf as u8,
    })
}

fn copied(alloc: Global, high: &[u8]) -> Result<Key, Memory>
    ensures same { IfOk result (λ key. key ≡ high.now) }
    ensures bytes { IfOk result (λ key. IsTrue (list_all (λ b. nat_lt b 256) key)) }
{
    let mut key = Key::new(alloc);
    for byte in high {
        key.push(*byte)?;
    }
    Ok(key)
}

fn anchors_in(dbd: &RawDbd, p: &RawPart) -> u32
    requires { IsTrue (factors_fit dbd.now.phdam (part_of dbd.now p.now)) }
    ensures { result ≡ anchors_of dbd.now p.now }
{
    match p.anchors {
        Some(anchors) => anchors,
        None => anch_of(dbd) * rbn_of(dbd),
    }
}
