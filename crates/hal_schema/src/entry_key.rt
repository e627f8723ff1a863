ghost use Rattle.std.specs.Prelude.{◌≡◌, ◌<◌, ◌++◌, IfOk, OnOk, IsTrue, length, flat_map};
ghost use Rattle.std.specs.List.{list_all, slice_get};
ghost use Rattle.std.specs.Option.{ForSome};
ghost use Rattle.hal_schema.specs.Entry.{entry_key};
ghost use Rattle.hal_schema.specs.Lawful.{is_within};
ghost use Rattle.hal_schema.specs.SegType.{path_key_bytes, portion, type_of};

use crate::{Field, IndexDef, Schema};
use hal_base::{Bytes, Key, Memory};
use std::alloc::Global;

impl Schema {
    /// The key of the entry that an index has for a row of its source type: the search fields of the row's
    /// content, and then the SUBSEQ portions of its concatenated key. IMS: the key of an index pointer segment.
    pub fn entry_key(
        &self,
        alloc: Global,
        index: u8,
        content: &[u8],
        keys: &[u8],
    ) -> Result<Option<Key>, Memory>
        requires known { index < length self.now.indexes }
        requires content_long { ForSome (slice_get self.now.indexes index) (λ i. ForSome (type_of self.now.types i.source) (λ t. length content.now ≡ t.bytes)) }
        requires keys_long { ForSome (slice_get self.now.indexes index) (λ i. length keys.now ≡ path_key_bytes self.now.types i.source) }
        ensures { IfOk result (λ key. ForSome (slice_get self.now.indexes index) (λ i. key ≡ entry_key i content.now keys.now)) }
    {
        let def = &self.indexes.as_slice()[index as usize];
        Ok(Some(key_by(alloc, def, content, keys)?))
    }
}

fn key_by(alloc: Global, index: &IndexDef, content: &[u8], keys: &[u8]) -> Result<Key, Memory>
    requires search { IsTrue (list_all (λ f. is_within (length content.now) f.start f.bytes) index.now.search) }
    requires subseq { IsTrue (list_all (λ f. is_within (length keys.now) f.start f.bytes) index.now.subseq) }
    ensures { IfOk result (λ key. entry_key index.now content.now keys.now ≡ Some key) }
{
    let mut key = Bytes::new(alloc);
    append_portions(&mut key, index.search.as_slice(), content)?;
    append_portions(&mut key, index.subseq.as_slice(), keys)?;
    Ok(key)
}

/// Appends the bytes of each field.
fn append_portions(key: &mut Key, fields: &[Field], content: &[u8]) -> Result<(), Memory>
    requires { IsTrue (list_all (λ f. is_within (length content.now) f.start f.bytes) fields.now) }
    ensures { OnOk result (key.new ≡ key.old ++ flat_map (λ f. portion f.start f.bytes content.now) fields.now) }
{
    for field in fields {
        let at = field.start as usize - 1;
        key.append(&content[at..at + field.bytes as usize])?;
    }
    Ok(())
}
