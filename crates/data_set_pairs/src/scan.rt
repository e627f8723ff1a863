// The data blocks, read into a table of pages.
ghost use Rattle.std.specs.Prelude.{◌≡◌, ◌+◌, ◌≤◌, ℕ, List, ◌∷◌, ◌⊎◌, length, drop, All, reverse, IfOk, IfSome, OnOk, IsErrOf, IsTrue, MatchBool};
ghost use Rattle.hal_base.specs.Fault.{Rose};
ghost use Rattle.data_set_pairs.specs.Stays.{Looks};
ghost use Rattle.data_set_pairs.specs.Table.{IsTable};
ghost use Rattle.data_set_pairs.specs.Image.{are_known, AreNumbered, BreaksRule, HasScanned, HasUnknown, IsScanned, TableStands};

use crate::VolWhy;
use crate::look::look;
use crate::order::settle;
use crate::place::PagePlace;
use crate::table::Table;
use hal_base::{BLOCK, Blocks, Memory, PartState};
use std::alloc::Global;
use volume_image::{head_of, is_free, is_live};

/// Takes up the data block n, the next below those that were taken up, and answers whether it is free or live.
fn take_up(
    table: &mut Table,
    indexes: u16,
    states: &[PartState],
    n: u32,
    block: &[u8; BLOCK],
) -> Result<bool, Memory>
    ensures taken { (blocks : List (List ℕ)) → IsScanned indexes states.now (n + 1) blocks table.old.pages.items table.old.free.items
        → IfOk result (λ good. MatchBool good (IsScanned indexes states.now n (block.now ∷ blocks) table.new.pages.items table.new.free.items)
        (HasUnknown indexes states.now (block.now ∷ blocks))) }
{
    if is_free(states, block) {
        table.free.push(n)?;
        return Ok(true);
    }
    if !is_live(indexes, states, block) {
        return Ok(false);
    }
    let head = head_of(block);
    table.pages.push(PagePlace {
        set: head.set,
        page: head.page,
        block: n,
    })?;
    Ok(true)
}

/// Reads the heads of the data blocks, from the last one down, so that the least free block comes last.
pub(crate) fn scan<B: Blocks>(
    alloc: Global,
    blocks: &mut B,
    control: u32,
    indexes: u16,
    states: &[PartState],
) -> Result<Table, VolWhy>
    requires live { IsTrue (B.seen blocks.old).live }
    requires number { control ≤ (B.seen blocks.old).number }
    ensures table { IfOk result (λ table. HasScanned indexes states.now control (B.seen blocks.old).number (B.seen blocks.old).list table.pages.items
        table.free.items) }
    ensures broken { (rule : ℕ) → result ≡ Err (VolWhy.Damaged rule) → (rule ≡ 1)
        × IfSome (B.seen blocks.old).list (λ list. HasUnknown indexes states.now (drop control list)) }
    ensures looks { Looks (B.steady blocks.old blocks.new) (B.seen blocks.old) (B.seen blocks.new) }
    ensures failed { IsErrOf result VolWhy.Failed → Rose (B.seen blocks.old).disk_faults (B.seen blocks.new).disk_faults }
    ensures live { (result ≡ Err VolWhy.Failed → ⊥) → IsTrue (B.seen blocks.new).live }
{
    let mut table = Table::new(alloc);
    let mut block = [0; BLOCK];
    let mut n = blocks.count();
    while n > control {
        n -= 1;
        look(blocks, n, &mut block)?;
        if !take_up(&mut table, indexes, states, n, &block)? {
            return Err(VolWhy::Damaged(1));
        }
    }
    Ok(table)
}

/// Reads the heads of the data blocks into a table of pages.
pub(crate) fn read_table<B: Blocks>(
    alloc: Global,
    blocks: &mut B,
    control: u32,
    indexes: u16,
    states: &[PartState],
) -> Result<Table, VolWhy>
    requires live { IsTrue (B.seen blocks.old).live }
    requires number { control ≤ (B.seen blocks.old).number }
    ensures table { IfOk result (λ table. IsTable control (B.seen blocks.old).number table.pages.items (reverse table.free.items)) }
    ensures stands { IfOk result (λ table. IfSome (B.seen blocks.old).list
        (TableStands indexes states.now control table.pages.items (reverse table.free.items))) }
    ensures known { OnOk result (IfSome (B.seen blocks.old).list (λ list. IsTrue (are_known indexes states.now (drop control list)))) }
    ensures numbered { OnOk result (IfSome (B.seen blocks.old).list (λ list. AreNumbered indexes states.now (drop control list))) }
    ensures broken { (rule : ℕ) → result ≡ Err (VolWhy.Damaged rule)
        → IfSome (B.seen blocks.old).list (λ list. BreaksRule indexes states.now (drop control list) rule) }
    ensures rule { (rule : ℕ) → result ≡ Err (VolWhy.Damaged rule) → (rule ≡ 1) ⊎ (rule ≡ 2) }
    ensures looks { Looks (B.steady blocks.old blocks.new) (B.seen blocks.old) (B.seen blocks.new) }
    ensures failed { IsErrOf result VolWhy.Failed → Rose (B.seen blocks.old).disk_faults (B.seen blocks.new).disk_faults }
    ensures live { (result ≡ Err VolWhy.Failed → ⊥) → IsTrue (B.seen blocks.new).live }
{
    let mut table = scan(alloc, blocks, control, indexes, states)?;
    if settle(&mut table.pages) {
        Ok(table)
    } else {
        Err(VolWhy::Damaged(2))
    }
}
