// Whether the names of a raw definition are plain.
ghost use Rattle.std.specs.Prelude.{◌≡◌, true};
ghost use Rattle.std.specs.List.{list_all};
ghost use Rattle.std.specs.Option.{option_map_or};
ghost use Rattle.hal_base.specs.Name.{is_field_name, is_name, is_portion_name};
ghost use Rattle.hal_schema.specs.Named.{dbd_is_named, parts_are_named, raw_index_is_named, raw_type_is_named};

use crate::{RawDbd, RawField, RawIndex, RawParts, RawType};
use hal_base::Name8;

impl RawDbd {
    /// Whether the names that this definition gives are plain; a field's may also be that of a portion of the concatenated key. Names that only point
    /// elsewhere (PARENT, an index's target and source, SRCH, SUBSEQ) aren't looked at.
    pub fn is_named(&self) -> bool
        ensures { result ≡ dbd_is_named self.now }
    {
        let types = self.types.as_slice();
        let indexes = self.indexes.as_slice();
        is_plain(self.name)
            && is_plain_or_none(self.rm)
            && are_named_types(types)
            && are_named_indexes(indexes)
    }
}

impl RawParts {
    /// Whether no name is that of a portion of the concatenated key.
    pub fn are_named(&self) -> bool
        ensures { result ≡ parts_are_named self.now }
    {
        self.parts.as_slice().iter().all(|p| is_plain(p.name))
    }
}

fn are_named_types(types: &[RawType]) -> bool
    ensures { result ≡ list_all raw_type_is_named types.now }
{
    types.iter().all(|t| is_named_type(t))
}

fn are_named_indexes(indexes: &[RawIndex]) -> bool
    ensures { result ≡ list_all raw_index_is_named indexes.now }
{
    indexes.iter().all(|i| is_named_index(i))
}

fn is_named_type(t: &RawType) -> bool
    ensures { result ≡ raw_type_is_named t.now }
{
    is_plain(t.name) && are_named_fields(t.fields.as_slice())
}

fn are_named_fields(fields: &[RawField]) -> bool
    ensures { result ≡ list_all (λ f. is_field_name f.name) fields.now }
{
    fields
        .iter()
        .all(|f| is_plain(f.name) || is_portion(f.name))
}

fn is_named_index(i: &RawIndex) -> bool
    ensures { result ≡ raw_index_is_named i.now }
{
    is_plain(i.seg) && is_plain(i.name) && is_plain(i.xdfld)
}

fn is_plain_or_none(name: Option<Name8>) -> bool
    ensures { result ≡ option_map_or is_name name true }
{
    match name {
        None => true,
        Some(name) => is_plain(name),
    }
}

fn is_plain(name: Name8) -> bool
    ensures { result ≡ is_name name }
{
    !matches!(name.as_slice(), [b'/', ..])
}

fn is_portion(name: Name8) -> bool
    ensures { result ≡ is_portion_name name }
{
    matches!(name.as_slice(), [b'/', ..])
}
