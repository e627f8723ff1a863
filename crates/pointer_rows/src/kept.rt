// An indirect list that stays open from call to call, beside the shelf that it stands over.
ghost use Rattle.std.specs.Prelude.{◌≡◌, IfOk, IsTrue};
ghost use Rattle.keyed_sets.specs.Calls.{IsOpened};
ghost use Rattle.keyed_sets.specs.OneProof.{IsOpened-prop};
ghost use Rattle.eps_pointers.specs.Listed.{list_set};
ghost use Rattle.eps_pointers.specs.Target.{HasAnchors};

use eps_pointers::{Ile, IndirectList};
use hal_base::{Ilk, PageFault, PartState, Shelf, StoreFault};
use hal_schema::PartDef;
use secondary_index::{Entry, Psindex};
use std::alloc::Global;

/// A shelf, and the indirect list of partition 1 on it, which stands for its pages between any two calls.
#[derive(Drop)]
pub struct OpenList<H: Shelf + Drop> {
    shelf: H,
    list: IndirectList,
    ghost opened: { IsOpened list.rows (H.seen shelf) } by { IsOpened-prop list.rows (H.seen shelf) },
}

impl<H: Shelf + Drop> OpenList<H> {
    pub fn new(alloc: Global, mut shelf: H) -> Result<OpenList<H>, StoreFault>
        requires { IsTrue (H.seen shelf).live }
        ensures { IfOk result (λ opened. opened.list.rows.set ≡ list_set 1) }
    {
        let list = IndirectList::open(alloc, &mut shelf, 1)?;
        Ok(OpenList { shelf, list })
    }

    pub fn find(&mut self, ilk: Ilk, code: u8) -> Result<Option<Ile>, PageFault>
        requires { IsTrue (H.seen self.old.shelf).live }
    {
        self.list.find(&mut self.shelf, ilk, code)
    }

    pub fn set(&mut self, ilk: Ilk, code: u8, ile: Ile) -> Result<(), PageFault>
        requires live { IsTrue (H.seen self.old.shelf).live }
        requires takes { IsTrue ((H.seen self.old.shelf).takes self.old.list.rows.set 2) }
    {
        self.list.set(&mut self.shelf, ilk, code, ile)
    }

    pub fn drop_entry(&mut self, ilk: Ilk, code: u8) -> Result<bool, PageFault>
        requires { IsTrue (H.seen self.old.shelf).live }
    {
        self.list.drop_entry(&mut self.shelf, ilk, code)
    }

    /// The address of the target of an entry of an index.
    pub fn resolve(
        &mut self,
        index: &Psindex,
        entry: &Entry,
        part: &PartDef,
        state: &PartState,
    ) -> Result<Option<u32>, PageFault>
        requires live { IsTrue (H.seen self.old.shelf).live }
        requires anchored { HasAnchors part.now.anchors state.now.cursor }
    {
        index.resolve(&mut self.shelf, entry, part, state, &mut self.list)
    }

    /// The shelf, on which another may be opened.
    pub fn into_shelf(self) -> H {
        let OpenList { shelf, list: _ } = self;
        shelf
    }

    /// The pages of the list.
    pub fn pages(&self) -> u32 {
        self.shelf.pages(hal_base::SetId {
            part: 1,
            number: 0,
            letter: b'L',
        })
    }
}
