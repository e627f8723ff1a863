ghost use Rattle.std.specs.Prelude.{◌≡◌, ◌<◌, ◌≤◌, IsTrue, length, count_by, IsSomeAnd};
ghost use Rattle.hal_schema.specs.SegType.{is_child, level_of, parent_code, type_of};
ghost use Rattle.hal_schema.specs.Lawful.{parents_are_before};

use crate::{Schema, SegType};
use hal_base::Shape;

impl Schema {
    /// How far a segment type is below the root type: 1 for the root type itself, at most 15.
    pub fn level(&self, code: u8) -> u8
        requires above { 0 < code }
        requires known { code ≤ length self.now.types }
        ensures { result ≡ level_of self.now.types code }
    {
        level_in(self.types.as_slice(), code)
    }

    /// What a cell of a segment type takes.
    pub fn shape(&self, code: u8) -> Shape
        requires above { 0 < code }
        requires known { code ≤ length self.now.types }
        ensures children { result.children ≡ count_by (is_child code) self.now.types }
        ensures bytes { IsSomeAnd (type_of self.now.types code) (λ t. result.bytes ≡ t.bytes) }
    {
        let types = self.types.as_slice();
        Shape {
            children: children_of(types, code),
            bytes: types[code as usize - 1].bytes,
        }
    }
}

fn level_in(types: &[SegType], code: u8) -> u8
    requires above { 0 < code }
    requires known { code ≤ length types.now }
    requires parents { IsTrue (parents_are_before types.now) }
    requires levels { level_of types.now code ≤ 15 }
    ensures { result ≡ level_of types.now code }
{
    let mut level = 1;
    let mut at = code;
    while let Some(parent) = parent_code(types, at) {
        level += 1;
        at = parent;
    }
    level
}

/// The code of a type's parent.
pub(crate) fn parent_code(types: &[SegType], code: u8) -> Option<u8>
    requires above { 0 < code }
    requires known { code ≤ length types.now }
    ensures { result ≡ parent_code types.now code }
{
    types[code as usize - 1].parent
}

fn children_of(types: &[SegType], code: u8) -> u8
    requires { length types.now ≤ 255 }
    ensures { result ≡ count_by (is_child code) types.now }
{
    let mut children = 0;
    for t in types {
        if t.parent == Some(code) {
            children += 1;
        }
    }
    children
}
