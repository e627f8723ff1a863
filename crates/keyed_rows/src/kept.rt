// A set that stays open from call to call, beside the shelf that it stands over.
ghost use Rattle.std.specs.Prelude.{◌≡◌, IsTrue};
ghost use Rattle.keyed_sets.specs.Calls.{IsOpened};
ghost use Rattle.keyed_sets.specs.OneProof.{IsOpened-prop};

use hal_base::{PageFault, SetId, Shelf, StoreFault};
use keyed_sets::KeyedSet;
use std::alloc::Global;

const SET: SetId = SetId {
    part: 1,
    number: 1,
    letter: b'X',
};

/// The bytes of a body: 40 rows fill a page.
const BODY: usize = 98;

/// A shelf, and a set of rows in one of its data sets, which stands for its pages between any two calls.
/// Keys and bodies are numbers; a body's number is followed by blanks.
#[derive(Drop)]
pub struct OpenSet<H: Shelf + Drop> {
    shelf: H,
    set: KeyedSet,
    ghost opened: { IsOpened set (H.seen shelf) } by { IsOpened-prop set (H.seen shelf) },
    ghost shape: { set.shape ≡ record { key = 2; body = 98 } },
}

impl<H: Shelf + Drop> OpenSet<H> {
    /// The set of the rows that stand on the shelf.
    pub fn new(alloc: Global, mut shelf: H) -> Result<OpenSet<H>, StoreFault>
        requires { IsTrue (H.seen shelf).live }
    {
        let set = KeyedSet::open(alloc, &mut shelf, SET, 2, BODY as u16)?;
        Ok(OpenSet { shelf, set })
    }

    pub fn put(&mut self, key: u16, number: u32) -> Result<(), PageFault>
        requires live { IsTrue (H.seen self.old.shelf).live }
        requires takes { IsTrue ((H.seen self.old.shelf).takes self.old.set.set 2) }
    {
        let mut body = [b' '; BODY];
        body[..4].copy_from_slice(&number.to_be_bytes());
        self.set.put(&mut self.shelf, &key.to_be_bytes(), &body)
    }

    pub fn get(&mut self, key: u16) -> Result<Option<u32>, PageFault>
        requires { IsTrue (H.seen self.old.shelf).live }
    {
        let found = self.set.get(&mut self.shelf, &key.to_be_bytes())?;
        Ok(found.map(|body| number_of(body.as_slice())))
    }

    /// The first key above this one, or the first of all, with the number beside it.
    pub fn next_after(&mut self, key: Option<u16>) -> Result<Option<(u16, u32)>, PageFault>
        requires { IsTrue (H.seen self.old.shelf).live }
    {
        let row = match key {
            Some(key) => self
                .set
                .next_after(&mut self.shelf, Some(&key.to_be_bytes()))?,
            None => self.set.next_after(&mut self.shelf, None)?,
        };
        Ok(row.map(|row| (key_in(row.0.as_slice()), number_of(row.1.as_slice()))))
    }

    /// Puts a row in unless another has its key, and says whether it did.
    pub fn insert(&mut self, key: u16, number: u32) -> Result<bool, PageFault>
        requires live { IsTrue (H.seen self.old.shelf).live }
        requires takes { IsTrue ((H.seen self.old.shelf).takes self.old.set.set 2) }
    {
        let mut body = [b' '; BODY];
        body[..4].copy_from_slice(&number.to_be_bytes());
        self.set.insert(&mut self.shelf, &key.to_be_bytes(), &body)
    }

    /// Writes the lower two bytes of a number over those of the number beside a key.
    pub fn overwrite(&mut self, key: u16, low: u16) -> Result<bool, PageFault>
        requires { IsTrue (H.seen self.old.shelf).live }
    {
        self.set
            .overwrite(&mut self.shelf, &key.to_be_bytes(), 2, &low.to_be_bytes())
    }

    /// The set of the rows that stand on the shelf now.
    pub fn reopened(self, alloc: Global) -> Result<OpenSet<H>, StoreFault>
        requires { IsTrue (H.seen self.shelf).live }
    {
        let OpenSet { shelf, set: _ } = self;
        OpenSet::new(alloc, shelf)
    }

    pub fn remove(&mut self, key: u16) -> Result<bool, PageFault>
        requires { IsTrue (H.seen self.old.shelf).live }
    {
        self.set.remove(&mut self.shelf, &key.to_be_bytes())
    }
}

/// The number at the front of these bytes, of four bytes at most.
fn number_of(bytes: &[u8]) -> u32 {
    bytes
        .iter()
        .take(4)
        .fold(0, |number: u32, byte| (number << 8) | u32::from(*byte))
}

/// The key that these two bytes are.
fn key_in(bytes: &[u8]) -> u16 {
    bytes
        .iter()
        .take(2)
        .fold(0, |key: u16, byte| (key << 8) | u16::from(*byte))
}
