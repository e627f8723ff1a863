// Looks at a view.
ghost use Rattle.std.specs.Prelude.{◌≡◌, ◌∷◌, [], ℕ, Option, None, Some, length, IfOk, IfSome, IsErrOf, IsTrue};
ghost use Rattle.hal_base.specs.Fault.{Fails};
ghost use Rattle.position_state.specs.Looks.{WalkView, tells_forest, Looked, Shows, Names, first_behind, last_before, past, found_at, root_of_key, above, of_entry, stands_in, has_search};

use crate::{Anchor, Spot};
use hal_base::{Ilk, Live, Memory};

/// Why a look answered nothing.
#[derive(Clone, Copy, Debug, PartialEq, Eq)]
pub enum WalkFault {
    Failed,
    Memory,
}

impl From<Memory> for WalkFault {
    ghost use Rattle.position_state.specs.declared.walk.WalkFault.TheVariants as fault;

    ghost from_gives = { λ _ why. why ≡ fault.Memory };

    fn from(_: Memory) -> WalkFault {
        WalkFault::Memory
    }
}

/// Looks at the views of a list: the plain one, with no index, and one for each secondary index. Where the list isn't
/// told, looks end and their faults have causes, and nothing is claimed of what they show.
pub trait Walk: Live {
    /// What is seen of the walk.
    ghost seen: { Self → WalkView };

    /// The first element behind a place.
    fn after(&mut self, index: Option<u8>, at: &Anchor) -> Result<Option<Spot>, WalkFault>
        requires live { IsTrue (seen self.old).live }
        requires there { IsTrue (stands_in (seen self.old) index at.now) }
        ensures shows { IfOk result (Shows (seen self.old) index (first_behind at.now)) }
        ensures looked { Looked (IsErrOf result WalkFault.Failed) (seen self.old) (seen self.new) };

    /// The last element before a place; none before the first element, and at the front.
    fn before(&mut self, index: Option<u8>, at: &Anchor) -> Result<Option<Spot>, WalkFault>
        requires live { IsTrue (seen self.old).live }
        requires there { IsTrue (stands_in (seen self.old) index at.now) }
        ensures shows { IfOk result (Shows (seen self.old) index (last_before at.now)) }
        ensures looked { Looked (IsErrOf result WalkFault.Failed) (seen self.old) (seen self.new) };

    /// The first element behind an element that isn't deeper.
    fn past(&mut self, index: Option<u8>, spot: &Spot) -> Result<Option<Spot>, WalkFault>
        requires live { IsTrue (seen self.old).live }
        requires there { IsTrue (stands_in (seen self.old) index spot.now.at) }
        ensures shows { IfOk result (Shows (seen self.old) index (past spot.now)) }
        ensures looked { Looked (IsErrOf result WalkFault.Failed) (seen self.old) (seen self.new) };

    /// The element at a place; none where there is none, and at the front.
    fn here(&mut self, index: Option<u8>, at: &Anchor) -> Result<Option<Spot>, WalkFault>
        requires live { IsTrue (seen self.old).live }
        ensures shows { IfOk result (Shows (seen self.old) index (found_at at.now)) }
        ensures looked { Looked (IsErrOf result WalkFault.Failed) (seen self.old) (seen self.new) };

    /// The root with a key, in the plain view.
    fn at_root(&mut self, key: &[u8]) -> Result<Option<Spot>, WalkFault>
        requires live { IsTrue (seen self.old).live }
        ensures shows { IfOk result (Shows (seen self.old) None (root_of_key key.now)) }
        ensures looked { Looked (IsErrOf result WalkFault.Failed) (seen self.old) (seen self.new) };

    /// The element of the parent; none where the path begins at this element.
    fn above(&mut self, index: Option<u8>, spot: &Spot) -> Result<Option<Spot>, WalkFault>
        requires live { IsTrue (seen self.old).live }
        requires there { IsTrue (stands_in (seen self.old) index spot.now.at) }
        ensures shows { IfOk result (Shows (seen self.old) index (above spot.now)) }
        ensures looked { Looked (IsErrOf result WalkFault.Failed) (seen self.old) (seen self.new) };

    /// The target of the first entry with these search fields.
    fn at_entry(&mut self, index: u8, search: &[u8]) -> Result<Option<Spot>, WalkFault>
        requires live { IsTrue (seen self.old).live }
        requires fields { IsTrue (has_search (seen self.old) index search.now) }
        ensures shows { IfOk result (Shows (seen self.old) (Some index) (of_entry search.now)) }
        ensures looked { Looked (IsErrOf result WalkFault.Failed) (seen self.old) (seen self.new) };

    /// The name of the target of the entry with a key.
    fn taken(&mut self, index: u8, key: &[u8]) -> Result<Option<Ilk>, WalkFault>
        requires live { IsTrue (seen self.old).live }
        ensures names { IfOk result (Names (seen self.old) index key.now) }
        ensures looked { Looked (IsErrOf result WalkFault.Failed) (seen self.old) (seen self.new) };

    /// How many blocks are free.
    fn free(&self) -> u32
        ensures { result ≡ (seen self.now).free };

    ghost alive: { (walk : Self) → (seen walk).live ≡ Self.live walk };

    ghost keeps_forest: { (walk : Self) → IsTrue (tells_forest (seen walk)) };
}
