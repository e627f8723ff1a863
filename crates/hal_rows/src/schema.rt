// The rules of definitions, and the checked schema that one says.
ghost use Rattle.std.specs.Prelude.{◌≡◌, ◌<◌, IsTrue, length};
ghost use Rattle.std.specs.List.{slice_get};
ghost use Rattle.std.specs.Option.{ForSome};
ghost use Rattle.hal_schema.specs.SegType.{path_key_bytes, type_of};

use crate::definitions::*;
use hal_base::Key;
use hal_schema::{IndexDef, Schema, SegType, first_schema, select};
use std::alloc::Global;
use std::test::Fail;

#[test]
fn kdb_builds(rt: HostRuntime) -> Result<(), Fail> {
    let alloc = rt.alloc();
    let g: TypeRow = ("G", "C", 2, b'A', 7);
    let u: TypeRow = ("U", "R", 4, b'A', 8);
    let raw = of_types(alloc, &[R, C, g, u], &[K, V, CK, ("U", "UK", 1, 2, 2, 9)])?;
    let schema = built(alloc, raw)?.copy(alloc)?;
    assert_eq!(rt; schema.types.len(), 4);
    for (code, segment, level, children) in [
        (1u8, "R", 1, 2),
        (2, "C", 2, 1),
        (3, "G", 3, 0),
        (4, "U", 2, 0),
    ] {
        assert!(rt; 0 < code && code as usize <= schema.types.len());
        let t = &schema.types.as_slice()[code as usize - 1];
        assert_eq!(rt; t.name.as_slice(), segment.as_bytes());
        assert_eq!(rt; t.first, segment == "U");
        assert_eq!(rt; schema.level(code), level);
        assert_eq!(rt; schema.shape(code).children, children);
    }
    assert_eq!(rt; schema.anch, 1);
    assert!(rt; schema.rm == None);
    for (key, place) in [
        ("500", Some(0)),
        ("501", Some(1)),
        ("999", Some(1)),
        ("99:", None),
    ] {
        assert_eq!(rt; select(&schema, key.as_bytes()), place);
    }
    let first = first_schema(alloc)?;
    assert_eq!(rt; first.types.len(), 1);
    Ok(())
}

const STATEMENTS: [(&str, FieldRow, TypeRow, FieldRow, FieldRow, Said); 17] = [
    ("sound", K, C, CK, NONE, SOUND),
    (
        "unknown parent",
        K,
        ("C", "X", 4, b'A', 5),
        NONE,
        NONE,
        (1, false, 5),
    ),
    (
        "two roots",
        K,
        ("C", "", 4, b'A', 5),
        NONE,
        NONE,
        (2, false, 5),
    ),
    (
        "segment twice",
        K,
        ("R", "R", 5, b'A', 5),
        NONE,
        NONE,
        (3, false, 5),
    ),
    (
        "field twice",
        K,
        C,
        ("C", "A", 1, 1, 0, 7),
        ("C", "A", 2, 1, 0, 6),
        (3, false, 7),
    ),
    (
        "no bytes",
        K,
        ("C", "R", 0, b'A', 5),
        NONE,
        NONE,
        (5, false, 5),
    ),
    (
        "too many bytes",
        K,
        ("C", "R", 2001, b'A', 5),
        NONE,
        NONE,
        (5, false, 5),
    ),
    (
        "field leaves",
        K,
        C,
        ("C", "A", 4, 2, 0, 6),
        NONE,
        (5, false, 6),
    ),
    (
        "field without bytes",
        K,
        C,
        ("C", "A", 4, 0, 0, 6),
        NONE,
        (5, false, 6),
    ),
    (
        "portion too far",
        K,
        C,
        ("C", "/CK1", 65_536, 1, 0, 6),
        NONE,
        (5, false, 6),
    ),
    (
        "two keys",
        K,
        C,
        ("C", "A", 1, 1, 1, 6),
        ("C", "B", 2, 1, 2, 7),
        (6, false, 7),
    ),
    (
        "portion as key",
        K,
        C,
        ("C", "/CK1", 1, 1, 1, 6),
        NONE,
        (6, false, 6),
    ),
    (
        "root without key",
        ("R", "K", 1, 3, 0, 3),
        C,
        NONE,
        NONE,
        (7, false, 2),
    ),
    (
        "root key not unique",
        ("R", "K", 1, 3, 2, 3),
        C,
        NONE,
        NONE,
        (7, false, 3),
    ),
    (
        "letter",
        K,
        ("C", "R", 4, b'K', 5),
        NONE,
        NONE,
        (8, false, 5),
    ),
    (
        "lesser rule",
        ("R", "K", 9, 3, 1, 3),
        ("C", "X", 4, b'A', 5),
        NONE,
        NONE,
        (1, false, 5),
    ),
    (
        "first item",
        ("R", "K", 9, 3, 1, 3),
        ("C", "R", 0, b'A', 5),
        NONE,
        NONE,
        (5, false, 3),
    ),
];

#[test]
fn rules_on_statements_are_said_at_their_lines(rt: HostRuntime) -> Result<(), Fail> {
    let alloc = rt.alloc();
    for (_, key, child, first, second, wanted) in STATEMENTS {
        let raw = of_types(alloc, &[R, child], &[key, V, first, second])?;
        assert_eq!(rt; said(alloc, raw)?, wanted);
    }
    Ok(())
}

const PARTITIONS: [(&str, PartRow, u32, Said); 13] = [
    ("sound", ("P2", 2, "500", 2, 99), 65_536, SOUND),
    ("name twice", ("P1", 2, "500", 0, 0), 40, (3, true, 2)),
    ("number twice", ("P2", 1, "500", 0, 0), 40, (3, true, 2)),
    ("short high key", ("P2", 2, "50", 0, 0), 40, (10, true, 2)),
    ("equal high keys", ("P2", 2, "999", 0, 0), 40, (10, true, 2)),
    ("fbff of 1", ("P2", 2, "500", 1, 0), 40, (11, true, 2)),
    ("fbff of 101", ("P2", 2, "500", 101, 0), 40, (11, true, 2)),
    ("fspf of 100", ("P2", 2, "500", 0, 100), 40, (11, true, 2)),
    ("number of 0", ("P2", 0, "500", 0, 0), 40, (12, true, 2)),
    (
        "number too large",
        ("P2", 32_768, "500", 0, 0),
        40,
        (12, true, 2),
    ),
    ("no blocks", ("P2", 2, "500", 0, 0), 0, (12, true, 0)),
    (
        "too many blocks",
        ("P2", 0, "500", 0, 0),
        65_537,
        (12, true, 0),
    ),
    ("lesser rule", ("P2", 0, "999", 0, 0), 0, (10, true, 2)),
];

#[test]
fn rules_on_partitions_are_said_at_their_places(rt: HostRuntime) -> Result<(), Fail> {
    let alloc = rt.alloc();
    for (case, second, blocks, wanted) in PARTITIONS {
        let mut raw = of_root(alloc)?;
        raw.parts = two_parts(alloc, P1, second)?;
        raw.parts.blocks = blocks;
        assert_eq!(rt; said(alloc, raw)?, wanted, "{case}");
    }
    Ok(())
}

#[test]
fn anchors_are_1_to_a_million(rt: HostRuntime) -> Result<(), Fail> {
    let alloc = rt.alloc();
    for (anchors, anch, wanted) in [
        (Some(1), 2, SOUND),
        (Some(1_000_000), 2, SOUND),
        (Some(1_000_001), 2, (11, true, 1)),
        (Some(0), 2, (11, true, 1)),
        (None, 1000, SOUND),
        (None, 1001, (11, true, 1)),
    ] {
        let raw = of_anchors(alloc, anchors, anch)?;
        assert_eq!(rt; said(alloc, raw)?, wanted, "{anch}");
    }
    Ok(())
}

const INDEXES: [(&str, IndexRow, Said); 9] = [
    ("within", ("VDB", "XV", "R", "C", "CK", "/CK1", ""), SOUND),
    (
        "beyond",
        ("VDB", "XV", "R", "C", "CK", "/CK1", "/CK2"),
        (9, false, 10),
    ),
    (
        "index twice",
        ("ZDB", "XV", "R", "C", "CK", "", ""),
        (3, false, 10),
    ),
    (
        "a field's name",
        ("VDB", "K", "R", "C", "CK", "", ""),
        (3, false, 10),
    ),
    (
        "unknown source",
        ("VDB", "XV", "R", "Q", "CK", "", ""),
        (9, false, 10),
    ),
    (
        "source above",
        ("VDB", "XV", "C", "R", "K", "", ""),
        (9, false, 10),
    ),
    (
        "no search field",
        ("VDB", "XV", "R", "C", "", "", ""),
        (9, false, 10),
    ),
    (
        "unknown search field",
        ("VDB", "XV", "R", "C", "V", "", ""),
        (9, false, 10),
    ),
    (
        "a portion in SRCH",
        ("VDB", "XV", "R", "C", "/CK1", "", ""),
        (9, false, 10),
    ),
];

#[test]
fn rules_on_indexes_are_said_at_their_lchild(rt: HostRuntime) -> Result<(), Fail> {
    let alloc = rt.alloc();
    for (case, row, wanted) in INDEXES {
        let raw = of_indexes(alloc, row)?;
        assert_eq!(rt; said(alloc, raw)?, wanted, "{case}");
    }
    Ok(())
}

#[test]
fn counts_are_said_at_the_item_that_passes_them(rt: HostRuntime) -> Result<(), Fail> {
    let alloc = rt.alloc();
    assert_eq!(rt; said(alloc, of_children(alloc, 254)?)?, SOUND);
    assert_eq!(rt; said(alloc, of_children(alloc, 255)?)?, (4, false, 264));
    assert_eq!(rt; said(alloc, of_chain(alloc, 14)?)?, SOUND);
    assert_eq!(rt; said(alloc, of_chain(alloc, 15)?)?, (4, false, 24));
    assert_eq!(rt; said(alloc, of_fields(alloc, 255)?)?, SOUND);
    assert_eq!(rt; said(alloc, of_fields(alloc, 256)?)?, (4, false, 258));
    assert_eq!(rt; said(alloc, of_many(alloc, 16, false)?)?, SOUND);
    assert_eq!(rt; said(alloc, of_many(alloc, 17, false)?)?, (4, false, 26));
    assert_eq!(rt; said(alloc, of_many(alloc, 17, true)?)?, (4, false, 100));
    assert_eq!(rt; said(alloc, of_parts(alloc, 100)?)?, SOUND);
    assert_eq!(rt; said(alloc, of_parts(alloc, 101)?)?, (4, true, 101));
    assert_eq!(rt; said(alloc, of_parts(alloc, 0)?)?, (4, true, 0));
    Ok(())
}

#[test]
fn keys_are_at_most_100_and_240_bytes(rt: HostRuntime) -> Result<(), Fail> {
    let alloc = rt.alloc();
    let long: TypeRow = ("C", "R", 241, b'A', 5);
    for (bytes, wanted) in [(100, SOUND), (101, (6, false, 6))] {
        let raw = of_types(alloc, &[R, long], &[K, V, ("C", "CK", 1, bytes, 2, 6)])?;
        assert_eq!(rt; said(alloc, raw)?, wanted, "{bytes}");
    }
    for (bytes, wanted) in [(240, SOUND), (241, (9, false, 9))] {
        let mut raw = of_types(alloc, &[R, long], &[K, V, ("C", "A", 1, bytes, 0, 6)])?;
        add_index(alloc, &mut raw, ("VDB", "XV", "C", "C", "A", "", ""), 9)?;
        assert_eq!(rt; said(alloc, raw)?, wanted, "{bytes}");
    }
    Ok(())
}

/// Whether the first index's source is the second type, a child of the first, and these are as long as the content and
/// the concatenated key of its rows.
fn fits_second(types: &[SegType], indexes: &[IndexDef], content: &[u8], keys: &[u8]) -> bool
    ensures known { IsTrue result → 0 < length indexes.now }
    ensures content_long { IsTrue result → ForSome (slice_get indexes.now 0) (λ i. ForSome (type_of types.now i.source) (λ t. length content.now ≡ t.bytes)) }
    ensures keys_long { IsTrue result → ForSome (slice_get indexes.now 0) (λ i. length keys.now ≡ path_key_bytes types.now i.source) }
{
    if indexes.is_empty() || types.len() < 2 {
        return false;
    }
    if indexes[0].source != 2 || types[1].parent != Some(1) {
        return false;
    }
    let (Some(first), Some(second)) = (types[0].key, types[1].key) else {
        return false;
    };
    content.len() == types[1].bytes as usize
        && keys.len() == first.bytes as usize + second.bytes as usize
}

/// The key of the entry that the first index has for a row of the second type, a child of the first.
fn entry_key(alloc: Global, schema: &Schema, content: &[u8], keys: &[u8]) -> Result<Key, Fail> {
    if !fits_second(
        schema.types.as_slice(),
        schema.indexes.as_slice(),
        content,
        keys,
    ) {
        return Err(Fail::from("another shape"));
    }
    let key = schema.entry_key(alloc, 0, content, keys)?;
    Ok(key.ok_or("no entry")?)
}

#[test]
fn an_entry_has_its_search_field_and_its_portion(rt: HostRuntime) -> Result<(), Fail> {
    let alloc = rt.alloc();
    let raw = of_indexes(alloc, ("VDB", "XV", "R", "C", "CK", "/CK1", ""))?;
    let schema = built(alloc, raw)?;
    let indexes = schema.indexes.as_slice();
    assert_eq!(rt; indexes.len(), 2);
    assert_eq!(rt; indexes[0].name.as_slice(), b"VDB".as_slice());
    assert_eq!(rt; indexes[1].name.as_slice(), b"ZDB".as_slice());
    let key = entry_key(alloc, &schema, b"ccxx", b"001cc")?;
    assert_eq!(rt; key.as_slice(), b"cc001cc".as_slice());
    Ok(())
}
