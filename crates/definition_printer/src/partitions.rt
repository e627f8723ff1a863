// The partition file.
ghost use Rattle.std.specs.Prelude.{◌≡◌, ◌++◌, IfOk, OnOk, flat_map};
ghost use Rattle.std.specs.List.{list_all};
ghost use Rattle.definition_printer.specs.Partitions.{is_plain, high_text, text_line, number_line, table_line, name_lines, space_lines, part_text, partitions_text};

use hal_base::{Bytes, Memory, put_number};
use hal_schema::{PartDef, Schema};
use std::alloc::Global;

fn is_plain(byte: u8) -> bool
    ensures { result ≡ is_plain byte }
{
    byte.is_ascii_alphanumeric()
}

fn are_plain(bytes: &[u8]) -> bool
    ensures { result ≡ list_all is_plain bytes.now }
{
    bytes.iter().all(|byte| is_plain(*byte))
}

fn high_text(alloc: Global, high: &[u8]) -> Result<Bytes, Memory>
    ensures { IfOk result (λ text. text ≡ high_text high.now) }
{
    if are_plain(high) {
        return Bytes::from_slice(alloc, high);
    }
    let digits = hex::encode_upper(alloc, high)?;
    let mut text = Bytes::from_slice(alloc, b"X'")?;
    text.append(digits.as_bytes())?;
    text.append(b"'")?;
    Ok(text)
}

#[tactic(auto, unfolding(crate::specs::Partitions::text_line))]
fn put_text_line(out: &mut Bytes, key: &[u8], text: &[u8]) -> Result<(), Memory>
    ensures { OnOk result (out.new ≡ out.old ++ text_line key.now text.now) }
{
    out.append(key)?;
    out.append(b" = \"")?;
    out.append(text)?;
    out.append(b"\"\n")
}

#[tactic(auto, unfolding(crate::specs::Partitions::number_line))]
fn put_number_line(alloc: Global, out: &mut Bytes, key: &[u8], number: u32) -> Result<(), Memory>
    ensures { OnOk result (out.new ≡ out.old ++ number_line key.now number) }
{
    out.append(key)?;
    out.append(b" = ")?;
    put_number(alloc, out, number)?;
    out.append(b"\n")
}

#[tactic(auto, unfolding(crate::specs::Partitions::table_line))]
fn put_table_line(out: &mut Bytes) -> Result<(), Memory>
    ensures { OnOk result (out.new ≡ out.old ++ table_line) }
{
    out.append(b"[[partition]]\n")
}

fn put_name_lines(alloc: Global, out: &mut Bytes, p: &PartDef) -> Result<(), Memory>
    ensures { OnOk result (out.new ≡ out.old ++ name_lines p.now) }
{
    put_text_line(out, b"name", p.name.as_slice())?;
    put_number_line(alloc, out, b"number", p.number as u32)?;
    let high = high_text(alloc, p.high.as_slice())?;
    put_text_line(out, b"high", high.as_slice())
}

fn put_space_lines(alloc: Global, out: &mut Bytes, p: &PartDef) -> Result<(), Memory>
    ensures { OnOk result (out.new ≡ out.old ++ space_lines p.now) }
{
    put_number_line(alloc, out, b"anchors", p.anchors)?;
    put_number_line(alloc, out, b"fbff", p.fbff as u32)?;
    put_number_line(alloc, out, b"fspf", p.fspf as u32)
}

#[tactic(auto, unfolding(crate::specs::Partitions::part_text))]
fn put_part(alloc: Global, out: &mut Bytes, p: &PartDef) -> Result<(), Memory>
    ensures { OnOk result (out.new ≡ out.old ++ part_text p.now) }
{
    put_table_line(out)?;
    put_name_lines(alloc, out, p)?;
    put_space_lines(alloc, out, p)
}

fn put_parts(alloc: Global, out: &mut Bytes, parts: &[PartDef]) -> Result<(), Memory>
    ensures { OnOk result (out.new ≡ out.old ++ flat_map part_text parts.now) }
{
    for p in parts {
        put_part(alloc, out, p)?;
    }
    Ok(())
}

/// The canonical partition file: `blocks`, then a table for each partition in the order of the high keys, with all
/// its keys.
#[tactic(auto, unfolding(crate::specs::Partitions::partitions_text))]
pub fn print_partitions(alloc: Global, schema: &Schema) -> Result<Bytes, Memory>
    ensures { IfOk result (λ text. text ≡ partitions_text schema.now) }
{
    let mut text = Bytes::new(alloc);
    put_number_line(alloc, &mut text, b"blocks", schema.blocks)?;
    put_parts(alloc, &mut text, schema.parts.as_slice())?;
    Ok(text)
}
