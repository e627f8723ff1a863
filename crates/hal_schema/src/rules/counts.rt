ghost use Rattle.std.specs.Prelude.{◌≡◌, ◌++◌, nat_lt, IfOk, IsTrue, OnOk, flat_map, map};
ghost use Rattle.std.specs.List.{enumerate_from};
ghost use Rattle.hal_schema.specs.Lawful.{parents_are_before};
ghost use Rattle.hal_schema.specs.Places.{partition, passing, statement, when};
ghost use Rattle.hal_schema.specs.Raw.{types_of};
ghost use Rattle.hal_schema.specs.Rules.{counts_passed, part_counts_passed, statement_counts_passed};
ghost use Rattle.hal_schema.specs.SegType.{level_of};

use crate::fault::{in_order, note, partition, statement};
use crate::rules::parents::level_in;
use crate::{Place, RawDbd, RawField, RawIndex, RawPart, RawSchema, RawType};
use hal_base::{List, Memory};
use std::alloc::Global;

/// More than 255 types, 15 levels, 255 fields in a segment or 16 indexes, or not 1 to 100 partitions.
pub(crate) fn counts_passed(
    alloc: Global,
    places: &mut List<Place>,
    raw: &RawSchema,
) -> Result<(), Memory>
    requires { IsTrue (parents_are_before (types_of raw.now.dbd.types)) }
    ensures { OnOk result (places.new ≡ places.old ++ counts_passed raw.now) }
{
    statement_counts_passed(alloc, places, &raw.dbd)?;
    part_counts_passed(alloc, places, raw.parts.parts.as_slice())
}

fn statement_counts_passed(
    alloc: Global,
    places: &mut List<Place>,
    dbd: &RawDbd,
) -> Result<(), Memory>
    requires { IsTrue (parents_are_before (types_of dbd.now.types)) }
    ensures { OnOk result (places.new ≡ places.old ++ statement_counts_passed dbd.now) }
{
    passing(
        alloc,
        places,
        255,
        type_places(alloc, dbd.types.as_slice())?.as_slice(),
    )?;
    levels_passed(places, dbd.types.as_slice())?;
    fields_passed(alloc, places, dbd.types.as_slice())?;
    passing(
        alloc,
        places,
        16,
        index_places(alloc, dbd.indexes.as_slice())?.as_slice(),
    )
}

fn part_counts_passed(
    alloc: Global,
    places: &mut List<Place>,
    parts: &[RawPart],
) -> Result<(), Memory>
    ensures { OnOk result (places.new ≡ places.old ++ part_counts_passed parts.now) }
{
    note(places, parts.is_empty(), partition(0))?;
    passing(alloc, places, 100, part_places(alloc, parts)?.as_slice())
}

fn levels_passed(places: &mut List<Place>, types: &[RawType]) -> Result<(), Memory>
    requires { IsTrue (parents_are_before (types_of types.now)) }
    ensures { OnOk result (places.new ≡ places.old ++ flat_map (λ t. when (nat_lt 15 (level_of (types_of types.now) t.0)) (statement t.1.line)) (enumerate_from 1 types.now)) }
{
    for (i, t) in types.iter().enumerate() {
        note(places, level_in(types, i + 1) > 15, statement(t.line))?;
    }
    Ok(())
}

fn fields_passed(alloc: Global, places: &mut List<Place>, types: &[RawType]) -> Result<(), Memory>
    ensures { OnOk result (places.new ≡ places.old ++ flat_map (λ t. passing 255 (map (λ f. statement f.line) t.fields)) types.now) }
{
    for t in types {
        passing(
            alloc,
            places,
            255,
            field_places(alloc, t.fields.as_slice())?.as_slice(),
        )?;
    }
    Ok(())
}

fn type_places(alloc: Global, types: &[RawType]) -> Result<List<Place>, Memory>
    ensures { IfOk result (λ places. places ≡ map (λ t. statement t.line) types.now) }
{
    let mut places = List::new(alloc);
    for t in types {
        places.push(statement(t.line))?;
    }
    Ok(places)
}

fn field_places(alloc: Global, fields: &[RawField]) -> Result<List<Place>, Memory>
    ensures { IfOk result (λ places. places ≡ map (λ f. statement f.line) fields.now) }
{
    let mut places = List::new(alloc);
    for f in fields {
        places.push(statement(f.line))?;
    }
    Ok(places)
}

fn index_places(alloc: Global, indexes: &[RawIndex]) -> Result<List<Place>, Memory>
    ensures { IfOk result (λ places. places ≡ map (λ i. statement i.line) indexes.now) }
{
    let mut places = List::new(alloc);
    for i in indexes {
        places.push(statement(i.line))?;
    }
    Ok(places)
}

fn part_places(alloc: Global, parts: &[RawPart]) -> Result<List<Place>, Memory>
    ensures { IfOk result (λ places. places ≡ map (λ p. partition p.place) parts.now) }
{
    let mut places = List::new(alloc);
    for p in parts {
        places.push(partition(p.place))?;
    }
    Ok(places)
}

/// The items that pass a count, by the order of their places.
#[tactic(auto, unfolding(crate::specs::Places::passing))]
fn passing(
    alloc: Global,
    places: &mut List<Place>,
    most: usize,
    all: &[Place],
) -> Result<(), Memory>
    ensures { OnOk result (places.new ≡ places.old ++ passing most all.now) }
{
    if all.len() <= most {
        return Ok(());
    }
    let ordered = in_order(alloc, all)?;
    append(places, &ordered.as_slice()[most..])
}

fn append(places: &mut List<Place>, more: &[Place]) -> Result<(), Memory>
    ensures { OnOk result (places.new ≡ places.old ++ more.now) }
{
    for place in more {
        places.push(*place)?;
    }
    Ok(())
}
