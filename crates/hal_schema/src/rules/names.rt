ghost use Rattle.std.specs.Prelude.{◌≡◌, ◌++◌, ◌==◌, IfOk, OnOk, filter, flat_map, map};
ghost use Rattle.std.specs.Str.{bytes_eq};
ghost use Rattle.hal_schema.specs.Places.{later, partition, statement, twice, when};
ghost use Rattle.hal_schema.specs.Rules.{field_names, named_fields, index_name, names_repeated, names_twice, part_name, same_name, same_number, type_name, xdflds_of};

use crate::fault::{later, note, partition, statement};
use crate::{Place, RawField, RawIndex, RawPart, RawSchema, RawType};
use hal_base::{List, Memory, Name8};
use std::alloc::Global;

/// A name and where it stands.
#[derive(Clone, Copy)]
pub struct Named {
    pub name: Name8,
    pub place: Place,
}

/// A name or a partition number stands twice.
pub(crate) fn names_repeated(
    alloc: Global,
    places: &mut List<Place>,
    raw: &RawSchema,
) -> Result<(), Memory>
    ensures { OnOk result (places.new ≡ places.old ++ names_repeated raw.now) }
{
    names_twice(
        places,
        type_names(alloc, raw.dbd.types.as_slice())?.as_slice(),
    )?;
    names_twice(
        places,
        index_names(alloc, raw.dbd.indexes.as_slice())?.as_slice(),
    )?;
    names_twice(
        places,
        part_names(alloc, raw.parts.parts.as_slice())?.as_slice(),
    )?;
    numbers_twice(places, raw.parts.parts.as_slice())?;
    fields_twice(
        alloc,
        places,
        raw.dbd.types.as_slice(),
        raw.dbd.indexes.as_slice(),
    )
}

fn type_names(alloc: Global, types: &[RawType]) -> Result<List<Named>, Memory>
    ensures { IfOk result (λ named. named ≡ map type_name types.now) }
{
    let mut named = List::new(alloc);
    for t in types {
        named.push(Named {
            name: t.name,
            place: statement(t.line),
        })?;
    }
    Ok(named)
}

fn index_names(alloc: Global, indexes: &[RawIndex]) -> Result<List<Named>, Memory>
    ensures { IfOk result (λ named. named ≡ map index_name indexes.now) }
{
    let mut named = List::new(alloc);
    for i in indexes {
        named.push(Named {
            name: i.name,
            place: statement(i.line),
        })?;
    }
    Ok(named)
}

fn part_names(alloc: Global, parts: &[RawPart]) -> Result<List<Named>, Memory>
    ensures { IfOk result (λ named. named ≡ map part_name parts.now) }
{
    let mut named = List::new(alloc);
    for p in parts {
        named.push(Named {
            name: p.name,
            place: partition(p.place),
        })?;
    }
    Ok(named)
}

fn fields_twice(
    alloc: Global,
    places: &mut List<Place>,
    types: &[RawType],
    indexes: &[RawIndex],
) -> Result<(), Memory>
    ensures { OnOk result (places.new ≡ places.old ++ flat_map (λ t. names_twice (field_names indexes.now t)) types.now) }
{
    for t in types {
        names_twice(places, field_names(alloc, indexes, t)?.as_slice())?;
    }
    Ok(())
}

fn field_names(alloc: Global, indexes: &[RawIndex], t: &RawType) -> Result<List<Named>, Memory>
    ensures { IfOk result (λ named. named ≡ field_names indexes.now t.now) }
{
    let mut named = List::new(alloc);
    add_fields(&mut named, t.fields.as_slice())?;
    add_xdflds(&mut named, indexes, t.name)?;
    Ok(named)
}

fn add_fields(named: &mut List<Named>, fields: &[RawField]) -> Result<(), Memory>
    ensures { OnOk result (named.new ≡ named.old ++ named_fields fields.now) }
{
    for f in fields {
        named.push(Named {
            name: f.name,
            place: statement(f.line),
        })?;
    }
    Ok(())
}

fn add_xdflds(named: &mut List<Named>, indexes: &[RawIndex], target: Name8) -> Result<(), Memory>
    ensures { OnOk result (named.new ≡ named.old ++ xdflds_of indexes.now target) }
{
    for i in indexes {
        if i.target == target {
            named.push(Named {
                name: i.xdfld,
                place: statement(i.line),
            })?;
        }
    }
    Ok(())
}

/// Each two of the same name, at the later one.
fn names_twice(places: &mut List<Place>, named: &[Named]) -> Result<(), Memory>
    ensures { OnOk result (places.new ≡ places.old ++ names_twice named.now) }
{
    for i in 0..named.len() {
        names_like(places, &named[i], &named[i + 1..])?;
    }
    Ok(())
}

fn names_like(places: &mut List<Place>, a: &Named, rest: &[Named]) -> Result<(), Memory>
    ensures { OnOk result (places.new ≡ places.old ++ flat_map (λ b. when (same_name a.now b) (later a.now.place b.place)) rest.now) }
{
    for b in rest {
        note(places, a.name == b.name, later(a.place, b.place))?;
    }
    Ok(())
}

fn numbers_twice(places: &mut List<Place>, parts: &[RawPart]) -> Result<(), Memory>
    ensures { OnOk result (places.new ≡ places.old ++ twice same_number (λ p. partition p.place) parts.now) }
{
    for i in 0..parts.len() {
        numbers_like(places, &parts[i], &parts[i + 1..])?;
    }
    Ok(())
}

fn numbers_like(places: &mut List<Place>, p: &RawPart, rest: &[RawPart]) -> Result<(), Memory>
    ensures { OnOk result (places.new ≡ places.old ++ flat_map (λ q. when (same_number p.now q) (later (partition p.now.place) (partition q.place))) rest.now) }
{
    for q in rest {
        note(
            places,
            p.number == q.number,
            later(partition(p.place), partition(q.place)),
        )?;
    }
    Ok(())
}
