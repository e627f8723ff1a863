// What an opening reads, and how it makes an image ready.
ghost use Rattle.std.specs.Prelude.{◌≡◌, ◌+◌, ◌-◌, ◌*◌, ◌^◌, ◌<◌, ◌≤◌, ℕ, List, Some, All, length, OnOk, IfOk, IsErrOf, IsTrue};
ghost use Rattle.hal_base.specs.Fault.{HasCause, HasCauseFor};
ghost use Rattle.block_journal.specs.Device.{Became, Looks, MadeFrom, StopsLeave, FitsBelow, IsExact};
ghost use Rattle.block_journal.specs.Opening.{ReadsBlock, ReadsBlocks, IsReady};
ghost use Rattle.block_journal.specs.Commit.{last_byte};
ghost use Rattle.block_journal.specs.Redo.{journal_start, is_open};
ghost use Rattle.block_journal.specs.Redoing.{IsRedone, SameRedo, RedoMakes, OpensOver, IsDamaged, IsSound};
ghost use Rattle.block_journal.specs.Stands.{Stands};

use crate::device::{place_of, write_synced};
use crate::fault::LoadFault;
use crate::protocol::GATE;
use crate::redo::settle;
use hal_base::{BLOCK, Failed, Site};
use std::alloc::Global;

#[tactic(auto, using(crate::proofs::Calls::exact_stays, crate::proofs::Made::became_later, crate::proofs::OpeningSteps::redo_waits))]
/// Fills up an image that ends before its last block does, so that no later write leaves a gap.
pub(crate) fn fill<T: Site>(site: &mut T, first: u64, count: u32) -> Result<(), Failed>
    requires behind { 8192 ≤ first }
    requires near { first ≤ 2 ^ 30 }
    requires exact { IsExact (T.image site.old) (T.left_at site.old (T.moment site.old)) }
    ensures ready { OnOk result (IsReady first count (T.image site.old) (T.image site.new)) }
    ensures exact { OnOk result (IsExact (T.image site.new) (T.left_at site.new (T.moment site.new))) }
    ensures told { Became (RedoMakes first count) (T.image site.old) (T.image site.new) }
    ensures said { T.said site.new ≡ T.said site.old }
    ensures stops { StopsLeave T.moment T.left_at (λ now. MadeFrom (RedoMakes first count) now (T.image site.old)) site.old site.new }
    ensures cause { HasCause (T.disk_faults site.old) (T.disk_faults site.new) result }
    ensures say_faults { T.say_faults site.new ≡ T.say_faults site.old }
    ensures room { FitsBelow T.room T.disk_faults (journal_start first count) site.old site.new }
{
    let mut last = [0u8; 1];
    let end = place_of(first, count);
    if site.read_at(end - 1, &mut last)? == 1 {
        return Ok(());
    }
    write_synced(site, end - 1, &[0])
}

/// Whether the gate is open.
pub(crate) fn read_gate<T: Site>(site: &mut T) -> Result<bool, Failed>
    ensures gate { IfOk result (λ opened. (image : List ℕ) → T.image site.old ≡ Some image → opened ≡ is_open image) }
    ensures leaves { Looks T.image T.said T.moment T.left_at T.disk_faults T.say_faults T.room site.old site.new }
    ensures cause { HasCause (T.disk_faults site.old) (T.disk_faults site.new) result }
{
    let mut gate = [0u8; 1];
    let read = site.read_at(GATE, &mut gate)?;
    Ok(read == 1 && gate[0] == 1)
}

/// The block that stands at `at`.
fn read_block<T: Site>(site: &mut T, at: u64, block: &mut [u8; BLOCK]) -> Result<(), Failed>
    requires { at + 4096 ≤ 2 ^ 63 - 1 }
    ensures block { OnOk result (ReadsBlock at (T.image site.old) block.new) }
    ensures leaves { Looks T.image T.said T.moment T.left_at T.disk_faults T.say_faults T.room site.old site.new }
    ensures cause { HasCause (T.disk_faults site.old) (T.disk_faults site.new) result }
{
    site.read_at(at, block)?;
    Ok(())
}

/// All the blocks.
pub(crate) fn read_blocks<T: Site>(
    alloc: Global,
    site: &mut T,
    first: u64,
    count: u32,
) -> Result<Vec<[u8; BLOCK]>, LoadFault>
    requires { first ≤ 2 ^ 30 }
    ensures blocks { IfOk result (λ blocks. ReadsBlocks first count (T.image site.old) blocks.items) }
    ensures count { IfOk result (λ blocks. length blocks.items ≡ count) }
    ensures whole { IfOk result (λ blocks. All (λ block. length block ≡ BLOCK) blocks.items) }
    ensures damaged { IsErrOf result LoadFault.Damaged → ⊥ }
    ensures leaves { Looks T.image T.said T.moment T.left_at T.disk_faults T.say_faults T.room site.old site.new }
    ensures cause { HasCauseFor (T.disk_faults site.old) (T.disk_faults site.new) result LoadFault.DiskFault }
{
    let mut blocks = Vec::new(alloc);
    let mut block = [0u8; BLOCK];
    for number in 0..count {
        read_block(site, place_of(first, number), &mut block)?;
        blocks.push(block)?;
    }
    Ok(blocks)
}

#[tactic(auto, using(crate::proofs::Calls::exact_stays, crate::proofs::Made::became_later, crate::proofs::Made::became_still, crate::proofs::OpeningSteps::redo_waits))]
/// Syncs, redoes an open journal or fills up the image, and reads the blocks.
pub(crate) fn load<T: Site>(
    alloc: Global,
    site: &mut T,
    first: u64,
    count: u32,
) -> Result<Vec<[u8; BLOCK]>, LoadFault>
    requires behind { 8192 ≤ first }
    requires near { first ≤ 2 ^ 30 }
    ensures redone { OnOk result (IsRedone first count (T.image site.old) (T.image site.new)) }
    ensures stands { IfOk result (λ kept. Stands first count kept.items (T.image site.new) (T.left_at site.new (T.moment site.new))) }
    ensures count { IfOk result (λ kept. length kept.items ≡ count) }
    ensures whole { IfOk result (λ kept. All (λ block. length block ≡ BLOCK) kept.items) }
    ensures sound { OnOk result (IsSound first count (T.image site.old)) }
    ensures damaged { IsErrOf result LoadFault.Damaged → (T.image site.new ≡ T.image site.old) × IsDamaged first count (T.image site.old) }
    ensures memory { IsErrOf result LoadFault.Memory → SameRedo first count (T.image site.old) (T.image site.new) }
    ensures told { Became (RedoMakes first count) (T.image site.old) (T.image site.new) }
    ensures said { T.said site.new ≡ T.said site.old }
    ensures stops { (synced : ℕ) × OnOk result (synced ≤ T.moment site.new) × OpensOver T.image T.moment T.left_at first count site.old site.new synced }
    ensures cause { HasCauseFor (T.disk_faults site.old) (T.disk_faults site.new) result LoadFault.DiskFault }
    ensures say_faults { T.say_faults site.new ≡ T.say_faults site.old }
    ensures room { FitsBelow T.room T.disk_faults (last_byte first count) site.old site.new }
{
    site.sync()?;
    settle(alloc, site, first, count)?;
    read_blocks(alloc, site, first, count)
}
