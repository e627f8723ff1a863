// What a look shows, and what calls change.
ghost use Rattle.std.specs.Prelude.{◌≡◌, IfOk};

use crate::Anchor;
use hal_base::{Bytes, Ilk, Key, Memory};

/// An element of a view, as a look shows it: its place, its type's code and level, its key and its content. The key is
/// the concatenated key; in a view by a secondary index the search fields stand in place of the keys down to the target.
#[derive(Debug, Drop)]
pub struct Spot {
    pub at: Anchor,
    pub code: u8,
    pub level: u8,
    pub key: Key,
    pub content: Bytes,
}

impl Spot {
    pub fn copy(&self) -> Result<Spot, Memory>
        ensures { IfOk result (λ spot. spot ≡ self.now) }
    {
        Ok(Spot {
            at: self.at.copy()?,
            code: self.code,
            level: self.level,
            key: self.key.copy()?,
            content: self.content.copy()?,
        })
    }
}

/// What a call changes. A row is named with the key of the root above it, an entry by its index and its key.
#[derive(Debug, Drop)]
pub enum Change {
    Nothing,
    /// ISRT: a new row, whose name is free.
    Insert {
        parent: Option<Ilk>,
        root: Key,
        code: u8,
        content: Bytes,
    },
    /// REPL
    Replace {
        name: Ilk,
        root: Key,
        content: Bytes,
    },
    /// DLET: the row and all below it.
    Delete {
        name: Ilk,
        root: Key,
    },
    /// The pointer of an entry is set to its target's present place. The list stays.
    Heal {
        index: u8,
        entry: Key,
    },
}
