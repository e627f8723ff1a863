use hal_base::{Bytes, List, Name8};

/// A FIELD statement as it was read, a `/CK` field too: `seq` is 0 for no sequence field, 1 for a unique one
/// and 2 for one that may stand twice. Each `line` is the one on which the statement begins.
#[derive(Clone, Copy, Debug)]
pub struct RawField {
    pub name: Name8,
    pub start: u32,
    pub bytes: u32,
    pub seq: u8,
    pub line: u32,
}

/// A SEGM statement as it was read, with its FIELD statements.
#[derive(Debug, Drop)]
pub struct RawType {
    pub name: Name8,
    pub parent: Option<Name8>,
    pub bytes: u32,
    pub first: bool,
    pub letter: u8,
    pub fields: List<RawField>,
    pub line: u32,
}

/// An LCHILD statement as it was read, with its XDFLD; `line` is that of the LCHILD.
#[derive(Debug, Drop)]
pub struct RawIndex {
    pub seg: Name8,
    pub name: Name8,
    pub xdfld: Name8,
    pub target: Name8,
    pub source: Name8,
    pub search: List<Name8>,
    pub subseq: List<Name8>,
    pub line: u32,
}

/// A table of the partition file as it was read; `place` counts the tables from 1.
#[derive(Debug, Drop)]
pub struct RawPart {
    pub name: Name8,
    pub number: u32,
    pub high: Bytes,
    pub anchors: Option<u32>,
    pub fbff: u32,
    pub fspf: u32,
    pub place: u32,
}

/// A DBD text as it was read.
#[derive(Debug, Drop)]
pub struct RawDbd {
    pub name: Name8,
    pub phdam: bool,
    pub rm: Option<Name8>,
    pub anch: u32,
    pub rbn: u32,
    pub types: List<RawType>,
    pub indexes: List<RawIndex>,
}

/// A partition file as it was read.
#[derive(Debug, Drop)]
pub struct RawParts {
    pub blocks: u32,
    pub parts: List<RawPart>,
}

/// A definition as it was read, its rules not yet looked at.
#[derive(Debug, Drop)]
pub struct RawSchema {
    pub dbd: RawDbd,
    pub parts: RawParts,
}
