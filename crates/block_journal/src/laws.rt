// What a live journal tells of the image that it stands on.
ghost use Rattle.std.specs.Prelude.{◌≡◌, ℕ, List, Some, IsTrue};
ghost use Rattle.block_journal.specs.Front.{HasLawfulGate};
ghost use Rattle.block_journal.specs.Redo.{redone};

use crate::Journal;
use hal_base::{Blocks, Site};

impl<T: Site> Journal<T> {
    /// While the journal is live the redo of the image that reads, where the site tells it, is the committed list; and
    /// where the image's gate is open, it has a body.
    pub fn stands_for_its_image(&self)
        requires { IsTrue (⟦<Journal<T> as Blocks>⟧.seen self.now).live }
        ensures committed { (image : List ℕ) → T.image self.now.site ≡ Some image →
            (⟦<Journal<T> as Blocks>⟧.seen self.now).committed ≡ Some (redone self.now.first self.now.count image) }
        ensures lawful { (image : List ℕ) → T.image self.now.site ≡ Some image → HasLawfulGate self.now.first self.now.count image }
    {}
}
