use hal_base::{Bytes, Cursor, Name8};

/// The segment that a reply shows: its type, its concatenated key, and after a get its content.
#[derive(Debug, Drop)]
pub struct SegOut {
    pub seg: Name8,
    pub key: Bytes,
    pub content: Option<Bytes>,
}

/// The partition that a reply shows. `side` is `A` or `M`; `state` is `I` idle, `C` active or `P` paused.
#[derive(Debug, Drop)]
pub struct PartOut {
    pub part: Name8,
    pub number: u16,
    pub side: u8,
    pub state: u8,
    pub cursor: Cursor,
}

/// A reply. `status` is two blanks where all went well; `number` is the cause of a `+B` or `+S`, or the
/// need of a `+R` or `+6`.
#[derive(Debug, Drop)]
pub struct Reply {
    pub status: [u8; 2],
    pub seg: Option<SegOut>,
    pub part: Option<PartOut>,
    pub number: Option<u32>,
}
