// What is kept of the rows before: the path of the last one.
ghost use Rattle.std.specs.Prelude.{◌≡◌, [], ◌∷◌, IfOk, IfSome, IfNone, OnOk, None, false, not, option_map};
ghost use Rattle.std.specs.Option.{option_map_or};
ghost use Rattle.std.specs.Ordering.{is_lt};
ghost use Rattle.hal_schema.specs.Keys.{key_cmp};
ghost use Rattle.std.specs.List.{slice_get};
ghost use Rattle.hal_loader.specs.Carrying.{code_kept, passed_on, is_of_later_type, is_above_key, has_same_key};
ghost use Rattle.hal_loader.specs.Placing.{is_of, path_from};

use hal_base::{Ilk, Key, Memory};
use std::alloc::Global;
use std::marker::Model;

/// A row on the path: its type, its name and its key.
#[derive(Debug, Drop)]
pub(crate) struct Level {
    pub code: u8,
    pub name: Ilk,
    pub key: Key,
}

/// The path of the last row. Contracts see it upwards: the row itself first, its root last.
#[derive(Debug, Drop)]
pub(crate) struct Path {
    levels: Vec<Level>,
}

impl Model for Path {
    ghost use Rattle.std.specs.Prelude.{List, reverse};
    ghost use Rattle.hal_loader.specs.declared.path.Level.{Level};

    ghost Value = { List Level };

    ghost view = { λ p. reverse p.levels.items };
}

impl Path {
    pub fn new(alloc: Global) -> Path
        ensures { result ≡ [] }
    {
        Path {
            levels: Vec::new(alloc),
        }
    }

    /// Goes down to a row below the one that the path ends at.
    pub fn push(&mut self, level: Level) -> Result<(), Memory>
        ensures { OnOk result (self.new ≡ level ∷ self.old) }
    {
        self.levels.push(level)?;
        Ok(())
    }

    /// Goes up by one row.
    fn pop(&mut self) -> Option<Level>
        ensures some { IfSome result (λ level. self.old ≡ level ∷ self.new) }
        ensures none { IfNone result (self.new ≡ []) }
        ensures end { IfNone result (self.old ≡ []) }
    {
        self.levels.pop()
    }

    /// The row that the path ends at.
    fn top(&self) -> Option<&Level>
        ensures { option_map (λ l. l.now) result ≡ slice_get self.now 0 }
    {
        self.levels.last()
    }

    /// The name of the row that the path ends at.
    pub fn name(&self) -> Option<Ilk>
        ensures { result ≡ option_map (λ l. l.name) (slice_get self.now 0) }
    {
        match self.top() {
            Some(level) => Some(level.name),
            None => None,
        }
    }
}

impl Path {
    /// Whether a row is left that isn't of this type.
    fn is_below(&self, wanted: Option<u8>) -> bool
        ensures { result ≡ option_map_or (λ l. not (is_of wanted l.code)) (slice_get self.now 0) false }
    {
        match self.top() {
            Some(level) => wanted != Some(level.code),
            None => false,
        }
    }

    /// Goes up to the first row of this type, to none where there is none. Answers the last row that was passed.
    pub fn climb(&mut self, wanted: Option<u8>) -> Option<Level>
        ensures above { self.new ≡ path_from code_kept wanted self.old }
        ensures below { result ≡ passed_on code_kept wanted None self.old }
    {
        let mut below = None;
        'levels: while self.is_below(wanted) {
            below = self.pop();
        }
        below
    }
}

/// Whether the newest sibling is of a later type.
pub(crate) fn is_of_later_type(below: &Option<Level>, code: u8) -> bool
    ensures { result ≡ is_of_later_type below.now code }
{
    match below {
        Some(level) => code < level.code,
        None => false,
    }
}

/// Whether the newest sibling is a twin whose key is above this one.
pub(crate) fn is_above_key(below: &Option<Level>, code: u8, key: &Key) -> bool
    ensures { result ≡ is_above_key below.now code key.now }
{
    match below {
        Some(level) => level.code == code && is_below(key.as_slice(), level.key.as_slice()),
        None => false,
    }
}

fn is_below(key: &[u8], other: &[u8]) -> bool
    ensures { result ≡ is_lt (key_cmp key.now other.now) }
{
    key.cmp(other).is_lt()
}

/// Whether the newest sibling is a twin that has this key.
pub(crate) fn has_same_key(below: &Option<Level>, code: u8, key: &Key) -> bool
    ensures { result ≡ has_same_key below.now code key.now }
{
    match below {
        Some(level) => level.code == code && *key == level.key,
        None => false,
    }
}
