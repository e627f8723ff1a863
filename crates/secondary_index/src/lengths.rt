// What a definition says of an index: the lengths of its entries, and the type of their targets.
ghost use Rattle.std.specs.Prelude.{◌≡◌, ◌<◌, ◌≤◌, ◌+◌, length, sum_by};
ghost use Rattle.hal_schema.specs.SegType.{key_bytes};
ghost use Rattle.secondary_index.specs.Entries.{IsShape, HasTarget};

use hal_schema::{Field, Schema, schemas_are_kept};
use keyed_sets::RowShape;

/// How many bytes the fields have together.
fn total_bytes(fields: &[Field]) -> u16
    requires { sum_by (λ f. f.bytes) fields.now ≤ 240 }
    ensures { result ≡ sum_by (λ f. f.bytes) fields.now }
{
    fields.iter().map(|f| f.bytes).sum()
}

/// How long the key of a root is.
fn root_bytes(schema: &Schema) -> u16
    ensures { result ≡ key_bytes schema.now.types 1 }
{
    let root = schema.types.as_slice().first();
    root.and_then(|t| t.key).map_or(0, |k| k.bytes)
}

/// The lengths of the rows of an index.
pub(crate) fn shape_of(schema: &Schema, place: u8) -> RowShape
    requires known { place < length schema.now.indexes }
    ensures is { IsShape schema.now place result }
    ensures some { 0 < result.key }
    ensures body { 16 ≤ result.body }
    ensures short { result.key + result.body ≤ 2040 }
{
    schemas_are_kept();
    let def = &schema.indexes.as_slice()[place as usize];
    RowShape {
        key: total_bytes(def.search.as_slice()) + total_bytes(def.subseq.as_slice()),
        body: 16 + root_bytes(schema),
    }
}

/// The code of the type of the targets.
pub(crate) fn target_of(schema: &Schema, place: u8) -> u8
    requires { place < length schema.now.indexes }
    ensures { HasTarget schema.now place result }
{
    schema.indexes.as_slice()[place as usize].target
}
