ghost use Rattle.std.specs.Prelude.{IsTrue};
ghost use Rattle.std.specs.List.{list_all};
ghost use Rattle.hal_schema.specs.Lawful.{parents_are_before, type_names_differ, index_names_differ, part_names_differ, part_numbers_differ};
ghost use Rattle.hal_schema.specs.Lawful.{field_names_differ, counts_are_kept, fields_fit, keys_are_fields, root_key_is_unique, letters_are_known};
ghost use Rattle.hal_schema.specs.Lawful.{indexes_are_kept, highs_rise, part_is_kept, blocks_are_kept, names_are_kept, module_is_kept};
ghost use Rattle.hal_schema.specs.Lawful.{part_is_stored};

use hal_base::{Key, List, Name8};

/// A field of a segment, or a portion of a concatenated key: `start` counts from 1. DBD: FIELD.
#[derive(Clone, Copy, Debug, PartialEq, Eq)]
pub struct Field {
    pub name: Name8,
    pub start: u16,
    pub bytes: u16,
}

/// The sequence field of a segment type: `start` counts from 1. DBD: FIELD NAME=(name,SEQ,U or M).
#[derive(Clone, Copy, Debug, PartialEq, Eq)]
pub struct KeyField {
    pub start: u16,
    pub bytes: u16,
    pub unique: bool,
}

/// A segment type; its code is its place from 1 in the definition, and `parent` is a code. `first` is
/// RULES=(,FIRST); `letter` is the data set group, `A` to `J`. DBD: SEGM.
#[derive(Debug, Drop)]
pub struct SegType {
    pub name: Name8,
    pub parent: Option<u8>,
    pub bytes: u16,
    pub key: Option<KeyField>,
    pub first: bool,
    pub letter: u8,
    pub fields: List<Field>,
}

/// A secondary index: `seg` and `name` are the segment and the database of its LCHILD, `target` and `source`
/// are codes, and `subseq` holds places in the concatenated key of the source. DBD: LCHILD and XDFLD.
#[derive(Debug, Drop)]
pub struct IndexDef {
    pub seg: Name8,
    pub name: Name8,
    pub xdfld: Name8,
    pub target: u8,
    pub source: u8,
    pub search: List<Field>,
    pub subseq: List<Field>,
}

/// A partition: its records are those whose root key is above the high keys before and not above `high`.
/// `anchors` counts the root anchors of a PHDAM partition; `fbff` and `fspf` are the free block and free
/// space factors of FRSPC.
#[derive(Debug, Drop)]
pub struct PartDef {
    pub name: Name8,
    pub number: u16,
    pub high: Key,
    pub anchors: u32,
    pub fbff: u8,
    pub fspf: u8,
}

/// A checked definition: types in the order of the definition, indexes by the codes of their targets,
/// partitions in the order of their high keys, and how many data blocks the volume has.
#[derive(Debug, Drop)]
pub struct Schema {
    pub name: Name8,
    pub phdam: bool,
    pub rm: Option<Name8>,
    pub anch: u32,
    pub rbn: u32,
    pub types: List<SegType>,
    pub indexes: List<IndexDef>,
    pub parts: List<PartDef>,
    pub blocks: u32,
    pub ghost parents: { IsTrue (parents_are_before types) },
    pub ghost type_names: { IsTrue (type_names_differ types) },
    pub ghost index_names: { IsTrue (index_names_differ indexes) },
    pub ghost part_names: { IsTrue (part_names_differ parts) },
    pub ghost part_numbers: { IsTrue (part_numbers_differ parts) },
    pub ghost field_names: { IsTrue (field_names_differ types indexes) },
    pub ghost counts: { IsTrue (counts_are_kept types indexes parts) },
    pub ghost fields: { IsTrue (fields_fit types) },
    pub ghost keys: { IsTrue (keys_are_fields types) },
    pub ghost root_key: { IsTrue (root_key_is_unique types) },
    pub ghost letters: { IsTrue (letters_are_known types) },
    pub ghost kept_indexes: { IsTrue (indexes_are_kept types indexes) },
    pub ghost highs: { IsTrue (highs_rise types parts) },
    pub ghost kept_parts: { IsTrue (list_all (part_is_kept phdam) parts) },
    pub ghost kept_blocks: { IsTrue (blocks_are_kept blocks) },
    pub ghost names: { IsTrue (names_are_kept name rm types indexes parts) },
    pub ghost module_kept: { IsTrue (module_is_kept phdam rm anch rbn) },
    pub ghost stored_parts: { IsTrue (list_all part_is_stored parts) },
}
