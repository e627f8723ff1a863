// A new row, before it has a home.
use crate::room::Room;
use hal_base::{Bytes, Ilk};

/// A new row: its name, or none where it is named by its home, and where its cell gets room.
#[derive(Debug, Drop)]
pub(crate) struct NewRow {
    pub(crate) code: u8,
    pub(crate) name: Option<Ilk>,
    pub(crate) content: Bytes,
    pub(crate) room: Room,
}
