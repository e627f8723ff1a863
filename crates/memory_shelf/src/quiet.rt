ghost use Rattle.std.specs.Prelude.{◌≡◌, ◌-◌, ◌≤◌, length, true, None, Some, ⊤};
ghost use Rattle.std.specs.List.{range_with_len};
ghost use Rattle.memory_shelf.specs.Shelved.{places_of};
ghost use Rattle.memory_shelf.specs.ShelfLaw.{few_in_all, free_rise};
ghost use Rattle.std.proofs.Common.{arith, refl};

use crate::MemShelf;
use crate::shelf::place_of;
use hal_base::{BLOCK, Failed, Live, PageFault, SetId, Shelf, StageFault};
use std::alloc::Global;

/// A shelf in memory that tells no content, as one over a real file: what its pages hold is known only from
/// reading them.
#[derive(Drop)]
pub struct QuietShelf {
    shelf: MemShelf,
}

impl QuietShelf {
    pub fn new(alloc: Global, count: u32) -> QuietShelf
        requires { count ≤ 65536 }
    {
        QuietShelf {
            shelf: MemShelf::new(alloc, count),
        }
    }
}

impl Live for QuietShelf {
    ghost live = { λ _. true };

    fn is_live(&self) -> bool {
        true
    }
}

impl Shelf for QuietShelf {
    ghost seen = { λ s. record {
      pages = λ _. None;
      places = λ set. places_of set 0 s.shelf.owners.items;
      free = range_with_len (length s.shelf.owners.items) (s.shelf.count - length s.shelf.owners.items);
      takes = λ _ _. true;
      disk_faults = 0;
      fetches = s.shelf.fetches;
      live = true;
    } };

    ghost steady = { λ _ _. ⊤ };

    ghost alive = { λ s. refl };

    ghost pages_are = { λ s set. tt };

    ghost told_alike = { λ s set other none. refl };

    ghost few = { λ s set. few_in_all set s.shelf.owners.items s.shelf.count s.shelf.within s.shelf.near };

    ghost free_rises = { λ s. free_rise 0 (length s.shelf.owners.items) (s.shelf.count - length s.shelf.owners.items) (omega arith) };

    ghost steady_none = { λ s. tt };

    ghost steady_then = { λ a b c first second. tt };

    fn pages(&self, set: SetId) -> u32 {
        self.shelf.pages(set)
    }

    fn fetch_page(&mut self, set: SetId, n: u16, into: &mut [u8; BLOCK]) -> Result<(), Failed> {
        self.shelf.fetch_page(set, n, into)
    }

    fn stage_page(&mut self, set: SetId, n: u16, from: &[u8; BLOCK]) -> Result<(), StageFault> {
        let place = place_of(&self.shelf.owners, set, usize::from(n));
        self.shelf.pages[place] = *from;
        Ok(())
    }

    fn grow(&mut self, set: SetId, kind: u8) -> Result<u16, PageFault> {
        self.shelf.grow(set, kind)
    }
}
