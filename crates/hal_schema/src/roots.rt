// The order in which roots stand, and the root anchors of PHDAM.
ghost use Rattle.std.specs.Prelude.{◌≡◌, ◌<◌, ℕ, List};
ghost use Rattle.std.specs.Cmp.{IsTotalOrder};
ghost use Rattle.std.specs.declared.cmp.Ordering.TheVariants.{Equal};
ghost use Rattle.hal_schema.specs.declared.schema.Schema.{Schema};
ghost use Rattle.hal_schema.specs.Roots.{partition_place, anchor_of, anchor_place, root_cmp};

use crate::{Schema, select};
use std::cmp::Ordering;

/// Which of a PHDAM partition's root anchors a root key has.
pub fn anchor(key: &[u8], anchors: u32) -> u32
    requires { 0 < anchors }
    ensures { result ≡ anchor_of anchors key.now }
{
    let mut hash = 0;
    for byte in key {
        hash = (31 * hash + u64::from(*byte)) % 4_294_967_296;
    }
    (hash % u64::from(anchors)) as u32
}

/// How two root keys compare in the order of roots. Keys above every high key stand behind all others.
pub fn root_cmp(schema: &Schema, a: &[u8], b: &[u8]) -> Ordering
    ensures { result ≡ root_cmp schema.now a.now b.now }
{
    place_of(schema, a)
        .cmp(&place_of(schema, b))
        .then(anchor_in(schema, a).cmp(&anchor_in(schema, b)))
        .then(a.cmp(b))
}

/// The order of roots is total, and only equal keys compare as equal.
pub fn root_order_is_total()
    ensures total { (schema : Schema) → IsTotalOrder (root_cmp schema) }
    ensures exact { (schema : Schema) (a b : List ℕ) → root_cmp schema a b ≡ Equal → a ≡ b }
{}

fn place_of(schema: &Schema, key: &[u8]) -> usize
    ensures { result ≡ partition_place schema.now key.now }
{
    match select(schema, key) {
        Some(place) => place as usize,
        None => schema.parts.len(),
    }
}

fn anchor_in(schema: &Schema, key: &[u8]) -> u32
    ensures { result ≡ anchor_place schema.now key.now }
{
    let place = place_of(schema, key);
    match schema.parts.as_slice().get(place) {
        Some(part) if schema.phdam => anchor(key, part.anchors),
        _ => 0,
    }
}
