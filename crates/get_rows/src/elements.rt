// A walk over elements in memory. It tells no list, as one over a real file: what it holds is known only by looking.
ghost use Rattle.std.specs.Prelude.{◌≡◌, ◌+◌, ◌-◌, ◌^◌, ◌≤◌, min, true, None, IfOk, length};
ghost use Rattle.std.proofs.Common.{refl};

use hal_base::{Ilk, List, Live, Memory};
use hal_schema::{Field, IndexDef, Schema, portion};
use position_state::{Anchor, Spot, Walk, WalkFault};
use std::alloc::Global;

/// Elements in hierarchic sequence, how often they were looked at, and how many blocks are free.
#[derive(Drop)]
pub struct Elements {
    schema: Schema,
    spots: List<Spot>,
    looks: u64,
    free: u32,
}

impl Elements {
    /// No elements, of a database of this schema without a free block.
    pub fn new(alloc: Global, schema: Schema) -> Elements {
        Elements {
            schema,
            spots: List::new(alloc),
            looks: 0,
            free: 0,
        }
    }

    pub fn set_free(&mut self, free: u32) {
        self.free = free;
    }

    /// Puts an element behind the others.
    pub fn push(&mut self, spot: Spot) -> Result<(), Memory> {
        self.spots.push(spot)
    }

    pub fn schema(&self, alloc: Global) -> Result<Schema, Memory>
        ensures { IfOk result (λ schema. schema ≡ self.now.schema) }
    {
        self.schema.copy(alloc)
    }

    /// How many looks there were.
    pub fn looks(&self) -> u64
        ensures { result ≡ self.now.looks }
    {
        self.looks
    }

    fn count(&mut self)
        ensures schema { self.new.schema ≡ self.old.schema }
        ensures free { self.new.free ≡ self.old.free }
        ensures looks { self.new.looks ≡ min (self.old.looks + 1) (2 ^ 64 - 1) }
    {
        self.looks = self.looks.saturating_add(1);
    }

    /// How many elements stand up to a place, the one at it with them: all where there is none.
    fn up_to(&self, at: &Anchor) -> usize
        ensures { result ≤ length self.now.spots }
    {
        let Anchor::At { name, .. } = at else {
            return 0;
        };
        for (place, spot) in self.spots.as_slice().iter().enumerate() {
            if is_named(spot, *name) {
                return place + 1;
            }
        }
        self.spots.len()
    }

    fn found(&self, at: &Anchor) -> Option<&Spot> {
        let Anchor::At { name, .. } = at else {
            return None;
        };
        for spot in self.spots.as_slice() {
            if is_named(spot, *name) {
                return Some(spot);
            }
        }
        None
    }

    fn root(&self, key: &[u8]) -> Option<&Spot> {
        for spot in self.spots.as_slice() {
            if spot.level == 1 && spot.key.as_slice() == key {
                return Some(spot);
            }
        }
        None
    }

    /// The first element from a place in the list on whose level is at most this.
    fn from(&self, place: usize, level: u8) -> Option<&Spot> {
        for spot in &self.spots.as_slice()[place.min(self.spots.len())..] {
            if spot.level <= level {
                return Some(spot);
            }
        }
        None
    }

    /// The target of the entry of an index with a key.
    fn target(&self, index: u8, key: &[u8]) -> Option<Ilk> {
        let index = self.schema.indexes.as_slice().get(index as usize)?;
        let mut target = None;
        for spot in self.spots.as_slice() {
            if spot.code == index.target {
                target = name_of(spot);
            }
            if spot.code == index.source && has_entry_key(index, spot, key) {
                return target;
            }
        }
        None
    }

    /// The last element before a place in the list whose level is below this.
    fn below(&self, place: usize, level: u8) -> Option<&Spot> {
        for spot in self.spots.as_slice()[..place.min(self.spots.len())]
            .iter()
            .rev()
        {
            if spot.level < level {
                return Some(spot);
            }
        }
        None
    }
}

fn is_named(spot: &Spot, wanted: Ilk) -> bool {
    match &spot.at {
        Anchor::Front => false,
        Anchor::At { name, .. } => *name == wanted,
    }
}

fn name_of(spot: &Spot) -> Option<Ilk> {
    match &spot.at {
        Anchor::Front => None,
        Anchor::At { name, .. } => Some(*name),
    }
}

/// Whether the entry of an element of the source type has this key.
fn has_entry_key(index: &IndexDef, spot: &Spot, key: &[u8]) -> bool {
    let Some(rest) = behind_portions(key, index.search.as_slice(), spot.content.as_slice()) else {
        return false;
    };
    behind_portions(rest, index.subseq.as_slice(), spot.key.as_slice()) == Some(&[])
}

/// What of a key is behind these fields of a content; none where it doesn't begin with them.
fn behind_portions<'a>(key: &'a [u8], fields: &[Field], content: &[u8]) -> Option<&'a [u8]> {
    let mut rest = key;
    for field in fields {
        rest = rest.strip_prefix(portion(content, field.start, field.bytes))?;
    }
    Some(rest)
}

fn copied(spot: Option<&Spot>) -> Result<Option<Spot>, Memory> {
    match spot {
        None => Ok(None),
        Some(spot) => Ok(Some(spot.copy()?)),
    }
}

impl Live for Elements {
    ghost live = { λ _. true };

    fn is_live(&self) -> bool {
        true
    }
}

impl Walk for Elements {
    ghost seen = { λ e. record { schema = e.schema; forest = None; free = e.free; faults = 0; looks = e.looks; live = true } };

    ghost alive = { λ e. refl };

    ghost keeps_forest = { λ e. refl };

    fn after(&mut self, index: Option<u8>, at: &Anchor) -> Result<Option<Spot>, WalkFault> {
        self.count();
        Ok(copied(self.from(self.up_to(at), u8::MAX))?)
    }

    fn before(&mut self, index: Option<u8>, at: &Anchor) -> Result<Option<Spot>, WalkFault> {
        self.count();
        Ok(copied(self.below(self.up_to(at).saturating_sub(1), u8::MAX))?)
    }

    fn past(&mut self, index: Option<u8>, spot: &Spot) -> Result<Option<Spot>, WalkFault> {
        self.count();
        Ok(copied(self.from(self.up_to(&spot.at), spot.level))?)
    }

    fn here(&mut self, index: Option<u8>, at: &Anchor) -> Result<Option<Spot>, WalkFault> {
        self.count();
        Ok(copied(self.found(at))?)
    }

    fn at_root(&mut self, key: &[u8]) -> Result<Option<Spot>, WalkFault> {
        self.count();
        Ok(copied(self.root(key))?)
    }

    fn above(&mut self, index: Option<u8>, spot: &Spot) -> Result<Option<Spot>, WalkFault> {
        self.count();
        Ok(copied(self.below(self.up_to(&spot.at).saturating_sub(1), spot.level))?)
    }

    fn at_entry(&mut self, index: u8, search: &[u8]) -> Result<Option<Spot>, WalkFault> {
        self.count();
        Ok(None)
    }

    fn taken(&mut self, index: u8, key: &[u8]) -> Result<Option<Ilk>, WalkFault> {
        self.count();
        Ok(self.target(index, key))
    }

    fn free(&self) -> u32 {
        self.free
    }
}
