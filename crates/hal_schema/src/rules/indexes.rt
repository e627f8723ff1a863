ghost use Rattle.std.specs.Prelude.{false, ◌+◌, nat_le, ◌≡◌, ◌<◌, ◌≤◌, ◌++◌, ◌==◌, ◌&&◌, not, min, IfOk, IfSome, IsTrue, OnOk, find, flat_map, length, sum_by};
ghost use Rattle.std.specs.List.{list_all, list_any};
ghost use Rattle.std.specs.Option.{option_map_or};
ghost use Rattle.std.specs.Str.{bytes_eq};
ghost use Rattle.hal_schema.specs.Lawful.{fields_are_kept, index_is_kept, is_key_portion, is_within, lie_in_source, parents_are_before, same_field};
ghost use Rattle.hal_schema.specs.Places.{statement, when};
ghost use Rattle.hal_schema.specs.Raw.{code_named, fields_named, index_of};
ghost use Rattle.hal_schema.specs.Rules.{indexes_broken};
ghost use Rattle.hal_schema.specs.SegType.{ancestry, key_bytes, parent_code, path_key_bytes, type_of};

use crate::fault::{note, statement};
use crate::rules::types::{is_key_portion, is_within};
use crate::types::parent_code;
use crate::{Field, IndexDef, Place, RawIndex, SegType};
use hal_base::{List, Memory, Name8};
use std::alloc::Global;

/// A name of an index is unknown, or the index isn't one of its types.
pub(crate) fn indexes_broken(
    alloc: Global,
    places: &mut List<Place>,
    types: &[SegType],
    indexes: &[RawIndex],
) -> Result<(), Memory>
    requires few { length types.now ≤ 255 }
    requires parents { IsTrue (parents_are_before types.now) }
    ensures { OnOk result (places.new ≡ places.old ++ indexes_broken types.now indexes.now) }
{
    for i in indexes {
        note(places, !is_sound(alloc, types, i)?, statement(i.line))?;
    }
    Ok(())
}

fn is_sound(alloc: Global, types: &[SegType], i: &RawIndex) -> Result<bool, Memory>
    requires few { length types.now ≤ 255 }
    requires parents { IsTrue (parents_are_before types.now) }
    ensures { IfOk result (λ sound. sound ≡ option_map_or (index_is_kept types.now) (index_of types.now i.now) false) }
{
    match index_of(alloc, types, i)? {
        Some(index) => Ok(index_is_kept(types, &index)),
        None => Ok(false),
    }
}

/// The index over these types, none where a name is unknown.
pub(crate) fn index_of(
    alloc: Global,
    types: &[SegType],
    i: &RawIndex,
) -> Result<Option<IndexDef>, Memory>
    requires { length types.now ≤ 255 }
    ensures index { IfOk result (λ index. index ≡ index_of types.now i.now) }
    ensures source { IfOk result (λ index. IfSome index (λ i. (0 < i.source) × (i.source ≤ length types.now))) }
{
    let Some(target) = code_named(types, i.target) else {
        return Ok(None);
    };
    let Some(source) = code_named(types, i.source) else {
        return Ok(None);
    };
    let fields = types[source as usize - 1].fields.as_slice();
    let Some(search) = fields_named(alloc, fields, i.search.as_slice())? else {
        return Ok(None);
    };
    let Some(subseq) = fields_named(alloc, fields, i.subseq.as_slice())? else {
        return Ok(None);
    };
    Ok(Some(IndexDef {
        seg: i.seg,
        name: i.name,
        xdfld: i.xdfld,
        target,
        source,
        search,
        subseq,
    }))
}

fn code_named(types: &[SegType], name: Name8) -> Option<u8>
    requires { length types.now ≤ 255 }
    ensures code { result ≡ code_named types.now name }
    ensures known { IfSome result (λ code. (0 < code) × (code ≤ length types.now)) }
{
    for (place, t) in types.iter().enumerate() {
        if t.name == name {
            return Some(place as u8 + 1);
        }
    }
    None
}

fn fields_named(
    alloc: Global,
    fields: &[Field],
    names: &[Name8],
) -> Result<Option<List<Field>>, Memory>
    ensures { IfOk result (λ found. found ≡ fields_named fields.now names.now) }
{
    let mut found = List::new(alloc);
    for name in names {
        match field_named(fields, *name) {
            Some(f) => found.push(f)?,
            None => return Ok(None),
        }
    }
    Ok(Some(found))
}

fn field_named(fields: &[Field], name: Name8) -> Option<Field>
    ensures { result ≡ find (λ f. bytes_eq f.name name) fields.now }
{
    for f in fields {
        if f.name == name {
            return Some(*f);
        }
    }
    None
}

fn index_is_kept(types: &[SegType], i: &IndexDef) -> bool
    requires above { 0 < i.now.source }
    requires known { i.now.source ≤ length types.now }
    requires parents { IsTrue (parents_are_before types.now) }
    ensures { result ≡ index_is_kept types.now i.now }
{
    is_at_or_below(types, i.source, i.target)
        && 1 <= i.search.len()
        && i.search.len() <= 5
        && fields_are_kept(types, i)
        && is_short(i)
}

fn is_short(i: &IndexDef) -> bool
    ensures { result ≡ nat_le (sum_by (λ f. f.bytes) i.now.search + sum_by (λ f. f.bytes) i.now.subseq) 240 }
{
    total_bytes(i.search.as_slice()) + total_bytes(i.subseq.as_slice()) <= 240
}

fn fields_are_kept(types: &[SegType], i: &IndexDef) -> bool
    requires above { 0 < i.now.source }
    requires known { i.now.source ≤ length types.now }
    requires parents { IsTrue (parents_are_before types.now) }
    ensures { result ≡ option_map_or (fields_are_kept types.now i.now) (type_of types.now i.now.source) false }
{
    let path = path_bytes(types, i.source);
    fields_are_among(types[i.source as usize - 1].fields.as_slice(), path, i)
}

fn fields_are_among(fields: &[Field], path: u32, i: &IndexDef) -> bool
    ensures { result ≡ lie_in_source path fields.now i.now }
{
    search_is_kept(fields, i.search.as_slice()) && subseq_is_kept(fields, path, i.subseq.as_slice())
}

fn is_at_or_below(types: &[SegType], source: u8, target: u8) -> bool
    requires above { 0 < source }
    requires known { source ≤ length types.now }
    requires parents { IsTrue (parents_are_before types.now) }
    ensures { result ≡ list_any (λ code. code == target) (ancestry (parent_code types.now) source) }
{
    let mut at = source;
    while at != target {
        match parent_code(types, at) {
            Some(parent) => at = parent,
            None => return false,
        }
    }
    true
}

/// How long the concatenated key of a type's rows is.
fn path_bytes(types: &[SegType], code: u8) -> u32
    requires above { 0 < code }
    requires known { code ≤ length types.now }
    requires parents { IsTrue (parents_are_before types.now) }
    ensures { result ≡ path_key_bytes types.now code }
{
    let mut bytes = u32::from(key_bytes(types, code));
    let mut at = code;
    while let Some(parent) = parent_code(types, at) {
        bytes += u32::from(key_bytes(types, parent));
        at = parent;
    }
    bytes
}

/// How long the sequence field of a type is.
pub(crate) fn key_bytes(types: &[SegType], code: u8) -> u16
    requires above { 0 < code }
    requires known { code ≤ length types.now }
    ensures { result ≡ key_bytes types.now code }
{
    match types[code as usize - 1].key {
        Some(key) => key.bytes,
        None => 0,
    }
}

fn search_is_kept(fields: &[Field], search: &[Field]) -> bool
    ensures { result ≡ list_all (λ f. not (is_key_portion f.name) && list_any (same_field f) fields.now) search.now }
{
    for f in search {
        if is_key_portion(f.name) || !is_among(fields, f) {
            return false;
        }
    }
    true
}

fn subseq_is_kept(fields: &[Field], path: u32, subseq: &[Field]) -> bool
    ensures { result ≡ list_all (λ f. is_key_portion f.name && list_any (same_field f) fields.now && is_within path f.start f.bytes) subseq.now }
{
    for f in subseq {
        if !(is_key_portion(f.name) && is_among(fields, f) && is_portion(path, f)) {
            return false;
        }
    }
    true
}

fn is_portion(path: u32, f: &Field) -> bool
    ensures { result ≡ is_within path f.now.start f.now.bytes }
{
    is_within(path, u32::from(f.start), u32::from(f.bytes))
}

fn is_among(fields: &[Field], f: &Field) -> bool
    ensures { result ≡ list_any (same_field f.now) fields.now }
{
    for g in fields {
        if is_same_field(f, g) {
            return true;
        }
    }
    false
}

fn is_same_field(f: &Field, g: &Field) -> bool
    ensures { result ≡ same_field f.now g.now }
{
    f.name == g.name && f.start == g.start && f.bytes == g.bytes
}

/// How many bytes the fields have together, at most 1,000.
fn total_bytes(fields: &[Field]) -> u32
    ensures { result ≡ min (sum_by (λ f. f.bytes) fields.now) 1000 }
{
    let mut total = 0;
    for f in fields {
        total = (total + u32::from(f.bytes)).min(1000);
    }
    total
}
