ghost use Rattle.std.specs.Prelude.{◌≡◌, IfOk};

use crate::{Key, Memory};

/// The indirect list key of a segment, its name for life: where its cell was when the segment was inserted
/// (address, partition and reorganization number). IMS: ILK.
#[derive(Clone, Copy, Debug, PartialEq, Eq, PartialOrd, Ord)]
pub struct Ilk {
    pub addr: u32,
    pub part: u16,
    pub number: u16,
}

/// What a cell of one segment type takes: the count of its child types, and its bytes of content.
#[derive(Clone, Copy, Debug, PartialEq, Eq)]
pub struct Shape {
    pub children: u8,
    pub bytes: u16,
}

/// How far a reorganization has come: the root key of the last record that was copied (PHIDAM), or how many
/// anchors are done (PHDAM).
#[derive(Debug, Drop)]
pub enum Cursor {
    Front,
    At(Key),
    Anchors(u32),
}

impl Cursor {
    pub fn copy(&self) -> Result<Cursor, Memory>
        ensures { IfOk result (λ cursor. cursor ≡ self.now) }
    {
        match self {
            Cursor::Front => Ok(Cursor::Front),
            Cursor::At(key) => Ok(Cursor::At(key.copy()?)),
            Cursor::Anchors(count) => Ok(Cursor::Anchors(*count)),
        }
    }
}

/// How a partition stands: its reorganization number, its active side (`A` or `M`), whether a reorganization
/// is idle (`I`), active (`C`) or paused (`P`), and how far it has come.
#[derive(Debug, Drop)]
pub struct PartState {
    pub part: u16,
    pub number: u16,
    pub side: u8,
    pub state: u8,
    pub cursor: Cursor,
}

impl PartState {
    pub fn copy(&self) -> Result<PartState, Memory>
        ensures { IfOk result (λ state. state ≡ self.now) }
    {
        Ok(PartState {
            part: self.part,
            number: self.number,
            side: self.side,
            state: self.state,
            cursor: self.cursor.copy()?,
        })
    }
}
