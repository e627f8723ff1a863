// Tables of a partition file.
ghost use Rattle.std.specs.Prelude.{◌≡◌, option_map};
ghost use Rattle.toml.specs.Data.{get_member};
ghost use Rattle.toml.specs.Text.{are_tables};
ghost use Rattle.toml.specs.View.{view, items_view, table_view};
ghost use Rattle.hal_schema.specs.Reading.{Says};
ghost use Rattle.partition_reader.specs.Values.{seen, needed};
ghost use Rattle.partition_reader.specs.Tables.{all_keys, known, is_part_key, part_of, next_place, part_in, parts_from, is_file_key, tables_in, parts_of};

use crate::value::{high_in, name_in, number_in, number_or_zero, optional_number, unreadable};
use hal_base::List;
use hal_schema::{RawPart, RawParts, TextFault};
use std::alloc::Global;
use toml::{Table, Value};

/// What a table has at a key.
fn member<'a>(table: &'a Table, key: &str) -> Option<&'a Value>
    ensures { option_map (λ v. view v.now) result ≡ get_member key.now (table_view table.now) }
{
    table.get(key)
}

/// The value of a key that has no default.
fn needed<'a>(place: u32, table: &'a Table, key: &str) -> Result<&'a Value, TextFault>
    ensures { seen (λ v. view v.now) result ≡ needed place key.now (table_view table.now) }
{
    match member(table, key) {
        Some(value) => Ok(value),
        None => Err(TextFault::Rule {
            rule: 22,
            line: place,
        }),
    }
}

fn is_part_key(key: &[u8]) -> bool
    ensures { result ≡ is_part_key key.now }
{
    key == b"name".as_slice()
        || key == b"number".as_slice()
        || key == b"high".as_slice()
        || key == b"anchors".as_slice()
        || key == b"fbff".as_slice()
        || key == b"fspf".as_slice()
}

fn are_part_keys(table: &Table) -> bool
    ensures { result ≡ all_keys is_part_key (table_view table.now) }
{
    for (key, _) in table.iter() {
        if !is_part_key(key.as_bytes()) {
            return false;
        }
    }
    true
}

fn is_file_key(key: &[u8]) -> bool
    ensures { result ≡ is_file_key key.now }
{
    key == b"blocks".as_slice() || key == b"partition".as_slice()
}

fn are_file_keys(table: &Table) -> bool
    ensures { result ≡ all_keys is_file_key (table_view table.now) }
{
    for (key, _) in table.iter() {
        if !is_file_key(key.as_bytes()) {
            return false;
        }
    }
    true
}

fn unknown(place: u32) -> TextFault
    ensures { result ≡ TextFault.Rule 24 place }
{
    TextFault::Rule {
        rule: 24,
        line: place,
    }
}

#[tactic(auto, unfolding(crate::specs::Tables::part_of))]
fn part_of(alloc: Global, place: u32, table: &Table) -> Result<RawPart, TextFault>
    ensures { Says result (part_of place (table_view table.now)) }
{
    let name = needed(place, table, "name")?;
    let number = needed(place, table, "number")?;
    let high = needed(place, table, "high")?;
    let name = name_in(place, name)?;
    let number = number_in(place, number)?;
    let high = high_in(alloc, place, high)?;
    let anchors = optional_number(place, member(table, "anchors"))?;
    let fbff = number_or_zero(place, member(table, "fbff"))?;
    let fspf = number_or_zero(place, member(table, "fspf"))?;
    if !are_part_keys(table) {
        return Err(unknown(place));
    }
    Ok(RawPart {
        name,
        number,
        high,
        anchors,
        fbff,
        fspf,
        place,
    })
}

fn part_in(alloc: Global, place: u32, value: &Value) -> Result<RawPart, TextFault>
    ensures { Says result (part_in place (view value.now)) }
{
    match value.as_table() {
        Some(table) => part_of(alloc, place, table),
        None => Err(unreadable(0)),
    }
}

fn next_place(place: u32) -> u32
    ensures { result ≡ next_place place }
{
    place.saturating_add(1)
}

fn parts_of_tables(alloc: Global, tables: &[Value]) -> Result<List<RawPart>, TextFault>
    ensures { Says result (parts_from 1 (items_view tables.now)) }
{
    let mut parts = List::new(alloc);
    let mut place = 1;
    for table in tables {
        parts.push(part_in(alloc, place, table)?)?;
        place = next_place(place);
    }
    Ok(parts)
}

fn are_tables(values: &[Value]) -> bool
    ensures { result ≡ are_tables (items_view values.now) }
{
    for value in values {
        if !value.is_table() {
            return false;
        }
    }
    true
}

/// The tables of the partitions.
fn tables_in(value: Option<&Value>) -> Result<&[Value], TextFault>
    ensures { seen (λ v. items_view v.now) result ≡ tables_in (option_map (λ v. view v.now) value.entry) }
{
    let Some(value) = value else {
        return Ok(&[]);
    };
    match value.as_array() {
        Some(array) if are_tables(array) => Ok(array),
        _ => Err(unreadable(0)),
    }
}

/// The partitions that the table of a file says.
#[tactic(auto, unfolding(crate::specs::Tables::parts_of))]
pub fn parts_of(alloc: Global, table: &Table) -> Result<RawParts, TextFault>
    ensures { Says result (parts_of (table_view table.now)) }
{
    let blocks = number_in(0, needed(0, table, "blocks")?)?;
    let tables = tables_in(member(table, "partition"))?;
    if !are_file_keys(table) {
        return Err(unknown(0));
    }
    let parts = parts_of_tables(alloc, tables)?;
    Ok(RawParts { blocks, parts })
}
