// Where a session stands.
ghost use Rattle.std.specs.Prelude.{◌≡◌, IfOk};
ghost use Rattle.std.specs.Option.{option_copied};

use hal_base::{Bytes, Ilk, Key, Memory};

/// A place in a view: before its first element, or at an element. An element is known by its row's name, the key of
/// the root above it and, in a view by a secondary index, the key of its entry.
#[derive(Debug, Drop)]
pub enum Anchor {
    Front,
    At {
        name: Ilk,
        root: Key,
        entry: Option<Key>,
    },
}

impl Anchor {
    pub fn copy(&self) -> Result<Anchor, Memory>
        ensures { IfOk result (λ anchor. anchor ≡ self.now) }
    {
        match self {
            Anchor::Front => Ok(Anchor::Front),
            Anchor::At { name, root, entry } => Ok(Anchor::At {
                name: *name,
                root: root.copy()?,
                entry: copied_key(entry)?,
            }),
        }
    }
}

fn copied_key(key: &Option<Key>) -> Result<Option<Key>, Memory>
    ensures { IfOk result (λ copy. copy ≡ key.now) }
{
    match key {
        None => Ok(None),
        Some(key) => Ok(Some(key.copy()?)),
    }
}

fn copied_anchor(anchor: &Option<Anchor>) -> Result<Option<Anchor>, Memory>
    ensures { IfOk result (λ copy. copy ≡ anchor.now) }
{
    match anchor {
        None => Ok(None),
        Some(anchor) => Ok(Some(anchor.copy()?)),
    }
}

/// An open session (IMS: a PCB): its processing options, the secondary index by which it sees the database (IMS:
/// PROCSEQ), its position, the segment that it holds (IMS: after a get hold), and its parentage.
#[derive(Debug, Drop)]
pub struct Session {
    pub options: Bytes,
    pub index: Option<u8>,
    pub anchor: Anchor,
    pub held: Option<Anchor>,
    pub parent: Option<Anchor>,
}

impl Session {
    pub fn copy(&self) -> Result<Session, Memory>
        ensures { IfOk result (λ session. session ≡ self.now) }
    {
        Ok(Session {
            options: self.options.copy()?,
            index: self.index,
            anchor: self.anchor.copy()?,
            held: copied_anchor(&self.held)?,
            parent: copied_anchor(&self.parent)?,
        })
    }
}
