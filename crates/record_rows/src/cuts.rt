// What a cut leaves of the side of `walks.rt`, to which a third C came, at 140, behind the second.
ghost use Rattle.std.specs.Prelude.{◌≡◌, ◌<◌, ◌≤◌, false, length};

use crate::{child, first_root, mark_at, place, remove, retire, root, set_twin, twin};
use hal_schema::Schema;
use memory_shelf::QuietShelf;
use record_tree::Place;
use std::alloc::Global;

const ROOT: Place = Place {
    parent: None,
    prior: None,
};

/// Whether what stands at each of these homes has this mark, or is gone.
fn are(alloc: Global, shelf: &mut QuietShelf, homes: &[u32], mark: Option<bool>) -> bool {
    for &home in homes {
        if mark_at(alloc, shelf, home) != Ok(mark) {
            return false;
        }
    }
    true
}

/// The G below the second C goes, and nothing else.
pub fn cuts_leaf(alloc: Global, shelf: &mut QuietShelf, schema: &Schema) -> bool
    requires some { 0 < length schema.now.parts }
    requires phidam { schema.now.phdam ≡ false }
    requires types { 3 ≤ length schema.now.types }
{
    let below = Place {
        parent: Some(68),
        prior: None,
    };
    remove(alloc, shelf, schema, below, 92) == Ok(())
        && child(alloc, shelf, schema, 68, 3) == Ok(None)
        && are(alloc, shelf, &[92], None)
        && are(alloc, shelf, &[16, 44, 68, 112], Some(false))
}

/// The second of three C goes with its G; the third stands behind the first then.
pub fn cuts_middle_twin(alloc: Global, shelf: &mut QuietShelf, schema: &Schema) -> bool
    requires some { 0 < length schema.now.parts }
    requires phidam { schema.now.phdam ≡ false }
    requires types { 3 ≤ length schema.now.types }
{
    let behind = Place {
        parent: Some(16),
        prior: Some(44),
    };
    place(alloc, shelf, 2, b"03zz") == Ok(140)
        && set_twin(alloc, shelf, 68, 140) == Ok(())
        && remove(alloc, shelf, schema, behind, 68) == Ok(())
        && twin(alloc, shelf, schema, 44) == Ok(Some(140))
        && child(alloc, shelf, schema, 16, 2) == Ok(Some(44))
        && are(alloc, shelf, &[68, 92], None)
        && are(alloc, shelf, &[16, 44, 112, 140], Some(false))
}

/// The first record goes whole, and the second root is the first then.
pub fn cuts_record(alloc: Global, shelf: &mut QuietShelf, schema: &Schema) -> bool
    requires some { 0 < length schema.now.parts }
    requires phidam { schema.now.phdam ≡ false }
{
    remove(alloc, shelf, schema, ROOT, 16) == Ok(())
        && root(alloc, shelf, schema, b"001") == Ok(None)
        && first_root(alloc, shelf, schema) == Ok(Some(112))
        && are(alloc, shelf, &[16, 44, 68, 92], None)
        && are(alloc, shelf, &[112], Some(false))
}

/// The first record is retired: it isn't found, and its cells stand, each with the mark.
pub fn retires_record(alloc: Global, shelf: &mut QuietShelf, schema: &Schema) -> bool
    requires some { 0 < length schema.now.parts }
    requires phidam { schema.now.phdam ≡ false }
{
    retire(alloc, shelf, schema, 16) == Ok(())
        && root(alloc, shelf, schema, b"001") == Ok(None)
        && first_root(alloc, shelf, schema) == Ok(Some(112))
        && are(alloc, shelf, &[16, 44, 68, 92], Some(true))
        && are(alloc, shelf, &[112], Some(false))
}
