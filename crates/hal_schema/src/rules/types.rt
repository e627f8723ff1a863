ghost use Rattle.std.specs.Prelude.{◌≡◌, ◌++◌, ◌&&◌, ◌||◌, not, nat_le, nat_lt, IsTrue, OnOk, flat_map};
ghost use Rattle.std.specs.List.{list_any, slice_get};
ghost use Rattle.hal_schema.specs.Lawful.{field_fits, is_key_portion, is_within};
ghost use Rattle.hal_schema.specs.Places.{later, statement, twice, when};
ghost use Rattle.hal_schema.specs.Raw.{field_of, is_sequence_field};
ghost use Rattle.hal_schema.specs.Rules.{both_sequence, letters_unknown, root_key_broken, sequence_broken, sizes_broken, sizes_in};

use crate::fault::{later, note, statement};
use crate::{Place, RawField, RawType};
use hal_base::{List, Memory, Name8};

/// BYTES isn't 1 to 2,000, or a field has no bytes or leaves its segment, or a number of a `/CK` field is
/// above 65,535.
pub(crate) fn sizes_broken(places: &mut List<Place>, types: &[RawType]) -> Result<(), Memory>
    ensures { OnOk result (places.new ≡ places.old ++ sizes_broken types.now) }
{
    for t in types {
        sizes_in(places, t)?;
    }
    Ok(())
}

fn sizes_in(places: &mut List<Place>, t: &RawType) -> Result<(), Memory>
    ensures { OnOk result (places.new ≡ places.old ++ sizes_in t.now) }
{
    note(places, t.bytes < 1 || t.bytes > 2000, statement(t.line))?;
    fields_in(places, t.bytes, t.fields.as_slice())
}

fn fields_in(places: &mut List<Place>, bytes: u32, fields: &[RawField]) -> Result<(), Memory>
    ensures { OnOk result (places.new ≡ places.old ++ flat_map (λ f. when (not (field_fits bytes (field_of f))) (statement f.line)) fields.now) }
{
    for f in fields {
        note(places, !field_fits(bytes, f), statement(f.line))?;
    }
    Ok(())
}

fn field_fits(bytes: u32, f: &RawField) -> bool
    ensures { result ≡ field_fits bytes (field_of f.now) }
{
    if is_key_portion(f.name) {
        f.start <= 65_535 && f.bytes <= 65_535
    } else {
        is_within(bytes, f.start, f.bytes)
    }
}

pub(crate) fn is_within(all: u32, start: u32, bytes: u32) -> bool
    ensures { result ≡ is_within all start bytes }
{
    1 <= start && 1 <= bytes && u64::from(start) + u64::from(bytes) <= u64::from(all) + 1
}

/// Whether a name is that of a portion of the concatenated key.
pub(crate) fn is_key_portion(name: Name8) -> bool
    ensures { result ≡ is_key_portion name }
{
    match name.as_slice() {
        [first, ..] => *first == b'/',
        [] => false,
    }
}

/// A segment has two sequence fields, or one is longer than 100 or is a `/CK` field.
pub(crate) fn sequence_broken(places: &mut List<Place>, types: &[RawType]) -> Result<(), Memory>
    ensures { OnOk result (places.new ≡ places.old ++ sequence_broken types.now) }
{
    for t in types {
        second_keys(places, t.fields.as_slice())?;
        keys_in(places, t.fields.as_slice())?;
    }
    Ok(())
}

fn keys_in(places: &mut List<Place>, fields: &[RawField]) -> Result<(), Memory>
    ensures { OnOk result (places.new ≡ places.old ++ flat_map (λ f. when (is_sequence_field f && (nat_lt 100 f.bytes || is_key_portion f.name)) (statement f.line)) fields.now) }
{
    for f in fields {
        let broken = f.seq > 0 && (f.bytes > 100 || is_key_portion(f.name));
        note(places, broken, statement(f.line))?;
    }
    Ok(())
}

fn second_keys(places: &mut List<Place>, fields: &[RawField]) -> Result<(), Memory>
    ensures { OnOk result (places.new ≡ places.old ++ twice both_sequence (λ f. statement f.line) fields.now) }
{
    for i in 0..fields.len() {
        second_keys_after(places, &fields[i], &fields[i + 1..])?;
    }
    Ok(())
}

fn second_keys_after(
    places: &mut List<Place>,
    f: &RawField,
    rest: &[RawField],
) -> Result<(), Memory>
    ensures { OnOk result (places.new ≡ places.old ++ flat_map (λ g. when (both_sequence f.now g) (later (statement f.now.line) (statement g.line))) rest.now) }
{
    for g in rest {
        note(
            places,
            f.seq > 0 && g.seq > 0,
            later(statement(f.line), statement(g.line)),
        )?;
    }
    Ok(())
}

/// The root has no sequence field, or one that may stand twice.
pub(crate) fn root_key_broken(places: &mut List<Place>, types: &[RawType]) -> Result<(), Memory>
    ensures { OnOk result (places.new ≡ places.old ++ root_key_broken (slice_get types.now 0)) }
{
    let Some(t) = types.first() else {
        return Ok(());
    };
    note(places, !has_key(t.fields.as_slice()), statement(t.line))?;
    twins_allowed(places, t.fields.as_slice())
}

fn has_key(fields: &[RawField]) -> bool
    ensures { result ≡ list_any is_sequence_field fields.now }
{
    for f in fields {
        if f.seq > 0 {
            return true;
        }
    }
    false
}

fn twins_allowed(places: &mut List<Place>, fields: &[RawField]) -> Result<(), Memory>
    ensures { OnOk result (places.new ≡ places.old ++ flat_map (λ f. when (nat_lt 1 f.seq) (statement f.line)) fields.now) }
{
    for f in fields {
        note(places, f.seq > 1, statement(f.line))?;
    }
    Ok(())
}

/// DSGROUP isn't `A` to `J`.
pub(crate) fn letters_unknown(places: &mut List<Place>, types: &[RawType]) -> Result<(), Memory>
    ensures { OnOk result (places.new ≡ places.old ++ letters_unknown types.now) }
{
    for t in types {
        note(places, !matches!(t.letter, b'A'..=b'J'), statement(t.line))?;
    }
    Ok(())
}
