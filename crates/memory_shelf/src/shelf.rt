ghost use Rattle.std.specs.Vec.{vec_capacity};
ghost use Rattle.std.specs.Prelude.{◌≡◌, ◌++◌, ◌∷◌, [], OnOk, vec_len, ◌+◌, ◌-◌, ◌<◌, ◌≤◌, length, true, All, Some, slice_get, ⊤};
ghost use Rattle.std.specs.List.{range_with_len};
ghost use Rattle.hal_base.specs.Pages.{empty_page};
ghost use Rattle.memory_shelf.specs.Shelved.{is_set, places_of, pages_of};
ghost use Rattle.memory_shelf.specs.ShelfLaw.{pages_fit, few_in_all, free_rise};
ghost use Rattle.std.proofs.Common.{arith, refl, sym};
ghost use Rattle.std.proofs.lemmas.Option.{none-some};

use hal_base::{BLOCK, Failed, Live, Memory, PageFault, SetId, Shelf, StageFault, empty_page};
use std::alloc::Global;

/// So many blocks in memory, all of them free at first. They never fail, and each data set and kind may have
/// pages.
#[derive(Drop)]
pub struct MemShelf {
    pub(crate) owners: Vec<SetId>,
    pub(crate) pages: Vec<[u8; BLOCK]>,
    pub(crate) count: u32,
    pub(crate) fetches: u64,
    ghost near: { count ≤ 65536 },
    ghost within: { length owners.items ≤ count },
    ghost as_many: { length pages.items ≡ length owners.items },
    ghost whole: { All (λ page. length page ≡ 4096) pages.items },
}

impl MemShelf {
    pub fn new(alloc: Global, count: u32) -> MemShelf
        requires { count ≤ 65536 }
        ensures empty { length result.owners.items ≡ 0 }
        ensures count { result.count ≡ count }
    {
        MemShelf {
            owners: Vec::new(alloc),
            pages: Vec::new(alloc),
            count,
            fetches: 0,
        }
    }
}

/// The block of a data set's page.
pub(crate) fn place_of(owners: &[SetId], set: SetId, page: usize) -> usize
    requires { page < length (places_of set 0 owners.now) }
    ensures { slice_get (places_of set 0 owners.now) page ≡ Some result }
{
    let mut left = page;
    for (place, owner) in owners.iter().enumerate() {
        if is_owner(owner, set) {
            if left == 0 {
                return place;
            }
            left -= 1;
        }
    }
    owners.len()
}

#[tactic(auto, unfolding(crate::specs::Shelved::is_set))]
fn is_owner(owner: &SetId, set: SetId) -> bool
    ensures { result ≡ is_set owner.now set }
{
    owner.part == set.part && owner.number == set.number && owner.letter == set.letter
}

fn count_of(owners: &[SetId], set: SetId) -> usize
    ensures { result ≡ length (places_of set 0 owners.now) }
{
    let mut count = 0;
    for owner in owners {
        if is_owner(owner, set) {
            count += 1;
        }
    }
    count
}

/// Makes room for one block more.
fn make_slots(owners: &mut Vec<SetId>, pages: &mut Vec<[u8; BLOCK]>) -> Result<(), Memory>
    ensures owners { owners.new.items ≡ owners.old.items }
    ensures pages { pages.new.items ≡ pages.old.items }
    ensures room { OnOk result (vec_len owners.new < vec_capacity owners.new) }
    ensures more { OnOk result (vec_len pages.new < vec_capacity pages.new) }
{
    owners.reserve(1)?;
    pages.reserve(1)?;
    Ok(())
}

/// Takes one block more, for which there is room.
fn add(owners: &mut Vec<SetId>, pages: &mut Vec<[u8; BLOCK]>, set: SetId, page: [u8; BLOCK])
    requires room { vec_len owners.old < vec_capacity owners.old }
    requires more { vec_len pages.old < vec_capacity pages.old }
    ensures owners { owners.new.items ≡ owners.old.items ++ set ∷ [] }
    ensures pages { pages.new.items ≡ pages.old.items ++ page ∷ [] }
{
    let _ = owners.push(set);
    let _ = pages.push(page);
}

impl Live for MemShelf {
    ghost live = { λ _. true };

    fn is_live(&self) -> bool {
        true
    }
}

impl Shelf for MemShelf {
    ghost seen = { λ s. record {
      pages = λ set. Some (pages_of set s.owners.items s.pages.items);
      places = λ set. places_of set 0 s.owners.items;
      free = range_with_len (length s.owners.items) (s.count - length s.owners.items);
      takes = λ _ _. true;
      disk_faults = 0;
      fetches = s.fetches;
      live = true;
    } };

    ghost steady = { λ _ _. ⊤ };

    ghost alive = { λ s. refl };

    ghost pages_are = { λ s set. pages_fit set s.owners.items s.pages.items s.as_many s.whole };

    ghost told_alike = { λ s set other none. absurd (none-some (pages_of set s.owners.items s.pages.items) (sym none)) };

    ghost few = { λ s set. few_in_all set s.owners.items s.count s.within s.near };

    ghost free_rises = { λ s. free_rise 0 (length s.owners.items) (s.count - length s.owners.items) (omega arith) };

    ghost steady_none = { λ s. tt };

    ghost steady_then = { λ a b c first second. tt };

    fn pages(&self, set: SetId) -> u32 {
        count_of(&self.owners, set) as u32
    }

    fn fetch_page(&mut self, set: SetId, n: u16, into: &mut [u8; BLOCK]) -> Result<(), Failed> {
        let place = place_of(&self.owners, set, usize::from(n));
        *into = self.pages[place];
        self.fetches = self.fetches.saturating_add(1);
        Ok(())
    }

    fn stage_page(&mut self, set: SetId, n: u16, from: &[u8; BLOCK]) -> Result<(), StageFault> {
        let place = place_of(&self.owners, set, usize::from(n));
        self.pages[place] = *from;
        Ok(())
    }

    fn grow(&mut self, set: SetId, kind: u8) -> Result<u16, PageFault> {
        if self.owners.len() == self.count as usize {
            return Err(PageFault::NoRoom);
        }
        if make_slots(&mut self.owners, &mut self.pages).is_err() {
            return Err(PageFault::Memory);
        }
        let page = count_of(&self.owners, set) as u16;
        let content = empty_page(set, kind, page);
        add(&mut self.owners, &mut self.pages, set, content);
        Ok(page)
    }
}
