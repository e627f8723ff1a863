// Schemas of texts, and calls on the front of a volume whose outcomes compare.
use dbd_reader::read_dbd;
use hal_base::{Bytes, List};
use hal_disk::MemSite;
use hal_schema::{RawSchema, Schema};
use partition_reader::read_partitions;
use std::alloc::Global;
use volume_head::{HeadFault, WriteFault, canonical_text, read_definition, write_volume};

/// The schema of a DBD text and a partition file, none where they break a rule or want memory.
pub fn schema_of(alloc: Global, dbd: &str, parts: &str) -> Option<Schema> {
    if dbd.len() > 10_000 {
        return None;
    }
    let Ok(parts) = read_partitions(alloc, parts.as_bytes()) else {
        return None;
    };
    let Ok((dbd, _)) = read_dbd(alloc, dbd.as_bytes()) else {
        return None;
    };
    if dbd.types.is_empty() {
        return None;
    }
    match Schema::build(alloc, RawSchema { dbd, parts }) {
        Ok(schema) => Some(schema),
        Err(_) => None,
    }
}

/// What is read of a definition.
#[derive(Clone, Copy, Debug, PartialEq, Eq)]
pub enum Found {
    /// The definition of this very schema.
    Same,
    Another,
    NotAVolume,
    Damaged,
    DiskFault,
    Memory,
}

/// Reads the definition of an image, and compares it with a schema by their canonical texts.
pub fn read(alloc: Global, image: Bytes, schema: &Schema) -> Found {
    let mut site = MemSite::new(alloc, image, List::new(alloc));
    match read_definition(alloc, &mut site) {
        Ok(found) => same(alloc, &found, schema),
        Err(HeadFault::NotAVolume) => Found::NotAVolume,
        Err(HeadFault::Damaged) => Found::Damaged,
        Err(HeadFault::DiskFault) => Found::DiskFault,
        Err(HeadFault::Memory) => Found::Memory,
    }
}

fn same(alloc: Global, found: &Schema, schema: &Schema) -> Found {
    let Ok(a) = canonical_text(alloc, found) else {
        return Found::Memory;
    };
    let Ok(b) = canonical_text(alloc, schema) else {
        return Found::Memory;
    };
    if a.as_slice() == b.as_slice() {
        Found::Same
    } else {
        Found::Another
    }
}

/// Writes the volume of a schema over an image, where these calls of the site fail, and gives the site back.
pub fn defined(
    alloc: Global,
    image: Bytes,
    failing: List<u64>,
    schema: &Schema,
) -> (Result<(), WriteFault>, MemSite) {
    let mut site = MemSite::new(alloc, image, failing);
    let result = write_volume(alloc, &mut site, schema);
    (result, site)
}
