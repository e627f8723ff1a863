// What the indexes and types of a schema say of codes.
ghost use Rattle.std.specs.Prelude.{◌≡◌, ◌<◌, IfSome, length, position};
ghost use Rattle.std.specs.Option.{option_copied};
ghost use Rattle.std.specs.Str.{bytes_eq};
ghost use Rattle.dli_calls.specs.Ssas.{code_named, index_of};

use hal_base::Name8;
use hal_schema::{IndexDef, Schema, SegType};

/// The code of the type of a name.
pub fn code_named(schema: &Schema, name: Name8) -> Option<u8>
    ensures { result ≡ code_named schema.now name }
{
    match place_named(schema.types.as_slice(), name) {
        None => None,
        Some(place) => Some(place as u8 + 1),
    }
}

fn place_named(types: &[SegType], name: Name8) -> Option<usize>
    ensures place { result ≡ position (λ t. bytes_eq t.name name) types.now }
    ensures within { IfSome result (λ place. place < length types.now) }
{
    for (place, t) in types.iter().enumerate() {
        if t.name == name {
            return Some(place);
        }
    }
    None
}

/// The index by which a session sees the database.
pub fn index_of(schema: &Schema, index: Option<u8>) -> Option<&IndexDef>
    ensures { option_copied result ≡ index_of schema.now index }
{
    schema.indexes.as_slice().get(index? as usize)
}
