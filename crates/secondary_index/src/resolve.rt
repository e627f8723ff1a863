// The target of an entry.
ghost use Rattle.std.specs.Prelude.{◌≡◌, IfOk, IsErrOf, IsTrue};
ghost use Rattle.hal_base.specs.ShelfCalls.{OnlyReads};
ghost use Rattle.keyed_sets.specs.Calls.{IsOpened};
ghost use Rattle.eps_pointers.specs.Target.{HasAnchors, generation_of};
ghost use Rattle.secondary_index.specs.Resolved.{Resolves, looks_of};

use crate::{Entry, Psindex};
use eps_pointers::{IndirectList, generation};
use hal_base::{PageFault, PartState, Shelf};
use hal_schema::PartDef;

impl Psindex {
    /// The address of the cell of an entry's target, in the data sets where its record stands. Partition, state and list
    /// are those of the entry's partition. None is there where the list has no row of the target, as in a sound volume it
    /// has where the pointer's number isn't that of these data sets.
    pub fn resolve<H: Shelf>(
        &self,
        shelf: &mut H,
        entry: &Entry,
        part: &PartDef,
        state: &PartState,
        list: &mut IndirectList,
    ) -> Result<Option<u32>, PageFault>
        requires live { IsTrue (H.seen shelf.old).live }
        requires opened { IsOpened list.old.rows (H.seen shelf.old) }
        requires anchored { HasAnchors part.now.anchors state.now.cursor }
        ensures target { IfOk result (Resolves list.old.rows.set (H.seen shelf.old) (generation_of part.now state.now entry.now.root)
            entry.now.eps self.now.target) }
        ensures kept { (list.new ≡ list.old) × IsOpened list.new.rows (H.seen shelf.new) }
        ensures leaves { OnlyReads (looks_of (generation_of part.now state.now entry.now.root) entry.now.eps)
            (H.steady shelf.old shelf.new) (IsErrOf result PageFault.Failed) (H.seen shelf.old) (H.seen shelf.new) }
        ensures room { IsErrOf result PageFault.NoRoom → ⊥ }
    {
        let now = generation(part, state, entry.root.as_slice());
        if u32::from(entry.eps.number) == now {
            return Ok(Some(entry.eps.addr));
        }
        let ile = list.find(shelf, entry.eps.ilk, self.target)?;
        Ok(ile.map(|ile| ile.addr))
    }
}
