// The partition that a root key belongs to.
ghost use Rattle.std.specs.Prelude.{◌≡◌, ◌<◌, IfSome, length, position};
ghost use Rattle.std.specs.Ordering.{is_le};
ghost use Rattle.hal_schema.specs.Keys.{key_cmp};
ghost use Rattle.hal_schema.specs.Roots.{partition_of};

use crate::{PartDef, Schema};

/// The place of the partition that a root key belongs to, none where the key is above every high key.
pub fn select(schema: &Schema, key: &[u8]) -> Option<u16>
    ensures { result ≡ partition_of schema.now key.now }
{
    match first_reaching(schema.parts.as_slice(), key) {
        Some(place) => Some(place as u16),
        None => None,
    }
}

fn first_reaching(parts: &[PartDef], key: &[u8]) -> Option<usize>
    ensures place { result ≡ position (λ part. is_le (key_cmp key.now part.high)) parts.now }
    ensures within { IfSome result (λ place. place < length parts.now) }
{
    for (place, part) in parts.iter().enumerate() {
        if reaches(part, key) {
            return Some(place);
        }
    }
    None
}

fn reaches(part: &PartDef, key: &[u8]) -> bool
    ensures { result ≡ is_le (key_cmp key.now part.now.high) }
{
    key.cmp(part.high.as_slice()).is_le()
}
