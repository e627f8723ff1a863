// The volume: blocks, the states of its partitions, and the table of its pages.
ghost use Rattle.std.specs.Prelude.{◌≡◌, ◌+◌, ◌*◌, ◌/◌, ◌<◌, ◌≤◌, ◌⊎◌, ℕ, List, Some, length, reverse, filter, drop, slice_get, IfOk, IfErr, IfSome, MatchResult, IsTrue};
ghost use Rattle.hal_base.specs.Fault.{Rose};
ghost use Rattle.volume_image.specs.Control.{control_count};
ghost use Rattle.volume_image.specs.Header.{is_free};
ghost use Rattle.volume_image.specs.Pages.{KeepsRule1, KeepsRule2};
ghost use Rattle.data_set_pairs.specs.Stays.{Looks};
ghost use Rattle.data_set_pairs.specs.Table.{IsTable, places_of};
ghost use Rattle.data_set_pairs.specs.Volume.{BreaksOne, BreaksTwo, IsLaidOut, IsLaidOutThen};
ghost use Rattle.data_set_pairs.specs.Kept.{held, last_held, last_states, last_pages, last_free};

use crate::fault::{VolFault, VolWhy};
use crate::load::load;
use crate::place::find_page;
use crate::states::control_count;
use crate::table::Table;
use hal_base::{Blocks, PartState, SetId};
use hal_schema::Schema;
use std::alloc::Global;

/// A volume over blocks: first the control blocks, then the data blocks. It holds the states of the partitions and the
/// table of pages in memory, as they are and, where they changed since the last commit, as they were then.
#[derive(Drop)]
pub struct Volume<B: Blocks> {
    pub(crate) blocks: B,
    pub(crate) control: u32,
    pub(crate) indexes: u16,
    pub(crate) states: Vec<PartState>,
    pub(crate) table: Table,
    pub(crate) kept_states: Option<Vec<PartState>>,
    pub(crate) kept_table: Option<Table>,
    ghost control_is: { control ≡ (length states.items + 31) / 32 },
    ghost near: { (B.seen blocks).number ≤ control + 65536 },
    ghost in_table: { IsTable control (B.seen blocks).number table.pages.items (reverse table.free.items) },
    ghost laid: { (list : List (List ℕ)) → (B.seen blocks).list ≡ Some list →
        IsLaidOut indexes control (B.seen blocks).number states.items table.pages.items (reverse table.free.items) list },
    ghost as_many: { length (last_states kept_states states) ≡ length states.items },
    ghost kept_in_table: { IsTable control (B.seen blocks).number (last_pages kept_table table) (reverse (last_free kept_table table)) },
    ghost kept_laid: { IsLaidOutThen (B.seen blocks) indexes control (last_states kept_states states) (last_pages kept_table table)
        (reverse (last_free kept_table table)) },
}

impl<B: Blocks> Volume<B> {
    /// Reads the control rows and the heads of the data blocks, of blocks on which nothing is staged. They are handed
    /// back with a refusal: `Damaged(1)` where the control rows or the heads break soundness rule 1, `Damaged(2)` where
    /// with these in order the page numbers of a data set break rule 2.
    pub fn read(alloc: Global, mut blocks: B, schema: &Schema) -> Result<Volume<B>, VolFault<B>>
        requires live { IsTrue (B.seen blocks).live }
        requires number { (B.seen blocks).number ≡ control_count schema.now + schema.now.blocks }
        requires clean { IsTrue (B.seen blocks).clean }
        ensures one { IfOk result (λ volume. IfSome (B.seen blocks).list (λ list. KeepsRule1 schema.now list volume.states.items)) }
        ensures two { IfOk result (λ volume. IfSome (B.seen blocks).list (λ list. KeepsRule2 schema.now list volume.states.items)) }
        ensures rule { IfErr result (λ fault. (rule : ℕ) → fault.why ≡ VolWhy.Damaged rule → (rule ≡ 1) ⊎ (rule ≡ 2)) }
        ensures breaks_one { IfErr result (λ fault. fault.why ≡ VolWhy.Damaged 1 → IfSome (B.seen blocks).list (BreaksOne schema.now)) }
        ensures breaks_two { IfErr result (λ fault. fault.why ≡ VolWhy.Damaged 2 → IfSome (B.seen blocks).list (BreaksTwo schema.now)) }
        ensures failed { IfErr result (λ fault. fault.why ≡ VolWhy.Failed → Rose (B.seen blocks).disk_faults (B.seen fault.blocks).disk_faults) }
        ensures looks { MatchResult result (λ volume. Looks (B.steady blocks volume.blocks) (B.seen blocks) (B.seen volume.blocks))
            (λ fault. Looks (B.steady blocks fault.blocks) (B.seen blocks) (B.seen fault.blocks)) }
        ensures live { MatchResult result (λ volume. IsTrue (B.seen volume.blocks).live)
            (λ fault. (fault.why ≡ VolWhy.Failed → ⊥) → IsTrue (B.seen fault.blocks).live) }
        ensures last { IfOk result (λ volume. last_held volume.control volume.indexes volume.kept_states volume.states volume.kept_table volume.table
            ≡ held volume.control volume.indexes volume.states volume.table) }
        ensures of { IfOk result (λ volume. (volume.indexes ≡ length schema.now.indexes) × (volume.control ≡ control_count schema.now)
            × (length volume.states.items ≡ length schema.now.parts)) }
    {
        match load(alloc, &mut blocks, schema) {
            Ok(loaded) => Ok(Volume {
                blocks,
                control: u32::from(control_count(schema)),
                indexes: schema.indexes.len() as u16,
                states: loaded.states,
                table: loaded.table,
                kept_states: None,
                kept_table: None,
            }),
            Err(why) => Err(VolFault { why, blocks }),
        }
    }

    /// The number of the block in which a page of a data set stands; none where the data set has no such page.
    pub fn block_of(&self, set: SetId, n: u16) -> Option<u32>
        ensures { result ≡ slice_get (places_of set self.now.table.pages.items) n }
    {
        find_page(&self.table.pages, set, n)
    }

    /// How many data blocks are free.
    pub fn free_count(&self) -> u32
        ensures count { result ≡ length self.now.table.free.items }
        ensures told { IfSome (B.seen self.now.blocks).list (λ list. result ≡ length (filter (is_free self.now.states.items) (drop self.now.control list))) }
    {
        self.table.free.len() as u32
    }

    /// How the partition at a place stands.
    pub fn state(&self, place: u16) -> &PartState
        requires { place < length self.now.states.items }
        ensures { slice_get self.now.states.items place ≡ Some result.now }
    {
        &self.states[usize::from(place)]
    }

    pub fn blocks(&self) -> &B
        ensures { result.now ≡ self.now.blocks }
    {
        &self.blocks
    }

    /// The blocks, with what is staged on them.
    pub fn into_blocks(self) -> B
        ensures { result ≡ self.blocks }
    {
        let Volume {
            blocks,
            control: _,
            indexes: _,
            states: _,
            table: _,
            kept_states: _,
            kept_table: _,
        } = self;
        blocks
    }
}
