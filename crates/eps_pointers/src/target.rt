// The generation in which a pointer's target stands.
ghost use Rattle.std.specs.Prelude.{◌≡◌};
ghost use Rattle.eps_pointers.specs.Target.{HasAnchors, generation_of, has_passed};

use hal_base::{Cursor, PartState};
use hal_schema::{PartDef, anchor};

/// The reorganization number of the data sets where the record of a root key stands: that of its partition, or the next
/// one where a reorganization has copied the record.
pub fn generation(part: &PartDef, state: &PartState, root: &[u8]) -> u32
    requires { HasAnchors part.now.anchors state.now.cursor }
    ensures { result ≡ generation_of part.now state.now root.now }
{
    let number = u32::from(state.number);
    if state.state != b'I' && has_passed(part.anchors, &state.cursor, root) {
        number + 1
    } else {
        number
    }
}

/// A root key is at or before a cursor.
fn has_passed(anchors: u32, cursor: &Cursor, root: &[u8]) -> bool
    requires { HasAnchors anchors cursor.now }
    ensures { result ≡ has_passed anchors cursor.now root.now }
{
    match cursor {
        Cursor::Front => false,
        Cursor::At(last) => root.cmp(last.as_slice()).is_le(),
        Cursor::Anchors(done) => anchor(root, anchors) < *done,
    }
}
