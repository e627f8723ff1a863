// A side is opened: its cells and its root set.
ghost use Rattle.std.specs.Prelude.{◌≡◌, ◌⊎◌, ◌<◌, ℕ, false, length, Err, IfOk, IsErrOf, IsTrue};
ghost use Rattle.hal_base.specs.ShelfCalls.{OnlyReads};
ghost use Rattle.record_tree.specs.Sides.{first_set};
ghost use Rattle.record_tree.specs.Standing.{KeepsSide, IsOpenedFor, BreaksSide, all_pages};

use crate::Records;
use crate::sides::{first_set, letters_of, root_bytes, root_set, shapes_of};
use free_space::SideCells;
use hal_base::{Shelf, StoreFault};
use hal_schema::{Schema, schemas_are_kept};
use keyed_sets::KeyedSet;
use std::alloc::Global;

impl Records {
    /// Opens a side of the PHIDAM partition at a place of the definition: `side` is `A` or `M`, and `number` the reorganization
    /// number of its data sets. Each page is read once. `BadTile` names the first page of a letter whose body isn't
    /// tiled, or else the first page of the root set that isn't one of its rows, as those that open them do.
    pub fn open<H: Shelf>(
        alloc: Global,
        shelf: &mut H,
        schema: &Schema,
        place: u16,
        number: u16,
        side: u8,
    ) -> Result<Records, StoreFault>
        requires live { IsTrue (H.seen shelf.old).live }
        requires known { place < length schema.now.parts }
        requires phidam { schema.now.phdam ≡ false }
        requires letter { (side ≡ 65) ⊎ (side ≡ 77) }
        requires side { KeepsSide schema.now place (first_set schema.now place number side) (H.seen shelf.old) }
        ensures opened { IfOk result (λ records. IsOpenedFor schema.now place (first_set schema.now place number side) records (H.seen shelf.new)) }
        ensures bad { (n offset : ℕ) → result ≡ Err (StoreFault.BadTile n offset) →
            BreaksSide schema.now (first_set schema.now place number side) (H.seen shelf.old) n offset }
        ensures leaves { OnlyReads (all_pages (first_set schema.now place number side) (H.seen shelf.old)) (H.steady shelf.old shelf.new)
            (IsErrOf result StoreFault.Failed) (H.seen shelf.old) (H.seen shelf.new) }
    {
        schemas_are_kept();
        let first = first_set(schema, place, number, side);
        let letters = letters_of(alloc, schema)?;
        let shapes = shapes_of(alloc, schema)?;
        let cells = SideCells::open(alloc, shelf, first, letters.as_slice(), shapes.as_slice())?;
        let roots = KeyedSet::open(alloc, shelf, root_set(first), root_bytes(schema), 4)?;
        let schema = schema.copy(alloc)?;
        Ok(Records {
            alloc,
            schema,
            place,
            first,
            cells,
            roots,
        })
    }
}
