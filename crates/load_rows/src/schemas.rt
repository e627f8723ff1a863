// Schemas of the texts of their definitions.
use dbd_reader::read_dbd;
use hal_schema::{RawSchema, Schema};
use partition_reader::read_partitions;
use std::alloc::Global;

/// The schema that two texts say, none where they break a rule.
pub fn schema_of(alloc: Global, dbd: &str, parts: &str) -> Option<Schema> {
    if dbd.len() > 10_000 {
        return None;
    }
    let Ok((dbd, _)) = read_dbd(alloc, dbd.as_bytes()) else {
        return None;
    };
    let Ok(parts) = read_partitions(alloc, parts.as_bytes()) else {
        return None;
    };
    match Schema::build(alloc, RawSchema { dbd, parts }) {
        Ok(schema) => Some(schema),
        Err(_) => None,
    }
}
