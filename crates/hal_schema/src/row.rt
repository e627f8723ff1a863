use hal_base::{Bytes, Ilk};

/// One segment occurrence: its name for life, its type's code, its parent's name (none for a root), and its
/// content, which has its type's length.
#[derive(Debug, Drop)]
pub struct Row {
    pub name: Ilk,
    pub code: u8,
    pub parent: Option<Ilk>,
    pub content: Bytes,
}
