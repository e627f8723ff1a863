// A volume as a shelf: pages by data set.
ghost use Rattle.std.specs.Prelude.{◌≡◌, reverse};
ghost use Rattle.std.specs.Option.{option_map};
ghost use Rattle.std.proofs.Common.{◌∙◌, ap, refl};
ghost use Rattle.data_set_pairs.specs.Table.{places_of};
ghost use Rattle.data_set_pairs.specs.Shelf.{blocks_at, kind_fits, takes, Standing, standing_of, IsSteady, view};
ghost use Rattle.data_set_pairs.specs.ShelfLaw.{control_then, few_pages, free_stays, free_then, free_rise, pages_fit, untold_alike};
ghost use Rattle.data_set_pairs.specs.StaysLaw.{stays_none, stays_then};

use crate::Volume;
use crate::place::{PagePlace, block_at, count_of};
use crate::table::make_room;
use hal_base::{BLOCK, Blocks, Failed, Live, PageFault, SetId, Shelf, StageFault, empty_page};
use volume_image::{has_cells, is_left, is_live_set};

impl<B: Blocks> Volume<B> {
    /// Whether `grow` may add a page of this kind, 1 with cells or 2 with rows, to a data set.
    pub fn takes(&self, set: SetId, kind: u8) -> bool
        ensures { result ≡ takes self.now.indexes self.now.states.items set kind }
    {
        !is_left(&self.states, set)
            && is_live_set(self.indexes, &self.states, kind, set)
            && kind_fits(set, kind)
    }
}

fn kind_fits(set: SetId, kind: u8) -> bool
    ensures { result ≡ kind_fits set kind }
{
    if has_cells(set.letter) && set.part < 32768 {
        kind == 1
    } else {
        kind == 2
    }
}

impl<B: Blocks> Live for Volume<B> {
    ghost live = { λ v. (B.seen v.blocks).live };

    fn is_live(&self) -> bool {
        self.blocks.is_live()
    }
}

impl<B: Blocks> Shelf for Volume<B> {
    ghost seen = { λ v. view v.indexes v.states.items v.table (B.seen v.blocks) };

    ghost steady = { λ a b. IsSteady (B.steady a.blocks b.blocks) (B.seen a.blocks) (B.seen b.blocks)
        (standing_of a.indexes a.control a.states a.kept_states a.table a.kept_table)
        (standing_of b.indexes b.control b.states b.kept_states b.table b.kept_table) a.table b.table };

    ghost alive = { λ v. refl };

    ghost pages_are = { λ v set. pages_fit v.indexes v.control (B.seen v.blocks).number v.states.items v.table.pages.items
        (reverse v.table.free.items) set (B.seen v.blocks).list v.in_table v.laid };

    ghost told_alike = { λ v set other none. untold_alike (blocks_at (places_of set v.table.pages.items))
        (blocks_at (places_of other v.table.pages.items)) (B.seen v.blocks).list none };

    ghost few = { λ v set. few_pages v.control (B.seen v.blocks).number v.table.pages.items (reverse v.table.free.items) set v.in_table v.near };

    ghost free_rises = { λ v. free_rise v.control (B.seen v.blocks).number v.table.pages.items (reverse v.table.free.items) v.in_table };

    ghost steady_none = { λ v. (
      stays_none (B.seen v.blocks) (B.steady_none v.blocks),
      refl,
      refl,
      free_stays (reverse v.table.free.items) (reverse v.table.free.items) (B.seen v.blocks).list (B.seen v.blocks).list refl refl,
    ) };

    ghost steady_then = { λ a b c first second. (
      stays_then first.0 second.0 (B.steady_then a.blocks b.blocks c.blocks),
      second.1 ∙ first.1,
      control_then a.control b.control (B.seen a.blocks).list (B.seen b.blocks).list (B.seen c.blocks).list
          (ap (λ (s : Standing). s.control) first.1) first.2 second.2,
      free_then (reverse a.table.free.items) (reverse b.table.free.items) (reverse c.table.free.items)
          (B.seen a.blocks).list (B.seen b.blocks).list (B.seen c.blocks).list first.3 second.3,
    ) };

    fn pages(&self, set: SetId) -> u32 {
        count_of(&self.table.pages, set)
    }

    fn fetch_page(&mut self, set: SetId, n: u16, into: &mut [u8; BLOCK]) -> Result<(), Failed> {
        let block = block_at(&self.table.pages, set, n);
        self.blocks.fetch(block, into)
    }

    fn stage_page(&mut self, set: SetId, n: u16, from: &[u8; BLOCK]) -> Result<(), StageFault> {
        let block = block_at(&self.table.pages, set, n);
        self.blocks.stage(block, from)
    }

    fn grow(&mut self, set: SetId, kind: u8) -> Result<u16, PageFault> {
        let Some(block) = self.table.least_free() else {
            return Err(PageFault::NoRoom);
        };
        if make_room(&mut self.table, &mut self.kept_table).is_err() {
            return Err(PageFault::Memory);
        }
        let page = count_of(&self.table.pages, set) as u16;
        if let Err(fault) = self.blocks.stage(block, &empty_page(set, kind, page)) {
            return Err(PageFault::from(fault));
        }
        self.table.add(PagePlace { set, page, block });
        Ok(page)
    }
}
