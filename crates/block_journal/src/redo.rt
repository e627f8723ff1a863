// The redo of an open journal: its blocks are written to their places, and then the gate is closed. Until that
// is on the disk the body stands behind the blocks, and redoes them once more after a stop.
ghost use Rattle.std.specs.Prelude.{◌≡◌, ◌+◌, ◌*◌, ◌^◌, ◌≤◌, ℕ, List, Some, length, true, OnOk, IsErrOf};
ghost use Rattle.hal_base.specs.Fault.{HasCause, HasCauseFor};
ghost use Rattle.block_journal.specs.Body.{HasBody};
ghost use Rattle.block_journal.specs.Commit.{last_byte};
ghost use Rattle.block_journal.specs.Device.{Became, MadeFrom, StopsLeave, FitsBelow, IsExact};
ghost use Rattle.block_journal.specs.Placing.{AreWhole};
ghost use Rattle.block_journal.specs.Reads.{LacksBody};
ghost use Rattle.block_journal.specs.Redo.{is_open};
ghost use Rattle.block_journal.specs.Redoing.{IsToRedo, IsRedone, RedoMakes, IsDamaged, IsSound};

use crate::body::read_body;
use crate::change::Changes;
use crate::device::{write_blocks, write_synced};
use crate::fault::LoadFault;
use crate::open::{fill, read_gate};
use crate::protocol::GATE;
use hal_base::{Failed, Site};
use std::alloc::Global;

/// Makes the changes of an open journal, and closes it.
pub(crate) fn redo_changes<T: Site>(
    site: &mut T,
    first: u64,
    count: u32,
    changes: &Changes,
) -> Result<(), Failed>
    requires behind { 8192 ≤ first }
    requires near { first ≤ 2 ^ 30 }
    requires whole { AreWhole count changes.now.entries }
    requires redo { (image : List ℕ) → T.image site.old ≡ Some image → IsToRedo first count changes.now.entries image }
    requires exact { IsExact (T.image site.old) (T.left_at site.old (T.moment site.old)) }
    ensures done { OnOk result (IsRedone first count (T.image site.old) (T.image site.new)) }
    ensures exact { OnOk result (IsExact (T.image site.new) (T.left_at site.new (T.moment site.new))) }
    ensures told { Became (RedoMakes first count) (T.image site.old) (T.image site.new) }
    ensures said { T.said site.new ≡ T.said site.old }
    ensures stops { StopsLeave T.moment T.left_at (λ now. MadeFrom (RedoMakes first count) now (T.image site.old)) site.old site.new }
    ensures cause { HasCause (T.disk_faults site.old) (T.disk_faults site.new) result }
    ensures say_faults { T.say_faults site.new ≡ T.say_faults site.old }
    ensures room { FitsBelow T.room T.disk_faults (last_byte first count) site.old site.new }
{
    write_blocks(site, first, count, changes)?;
    write_synced(site, GATE, &[0])
}

#[tactic(auto, using(crate::proofs::Calls::exact_stays, crate::proofs::Made::became_later, crate::proofs::OpeningSteps::redo_waits))]
/// Redoes the journal of an image whose gate is open. Where its body isn't as the layout asks, nothing is written.
fn redo<T: Site>(alloc: Global, site: &mut T, first: u64, count: u32) -> Result<(), LoadFault>
    requires behind { 8192 ≤ first }
    requires near { first ≤ 2 ^ 30 }
    requires opened { (image : List ℕ) → T.image site.old ≡ Some image → is_open image ≡ true }
    requires exact { IsExact (T.image site.old) (T.left_at site.old (T.moment site.old)) }
    ensures done { OnOk result (IsRedone first count (T.image site.old) (T.image site.new)) }
    ensures exact { OnOk result (IsExact (T.image site.new) (T.left_at site.new (T.moment site.new))) }
    ensures body { OnOk result ((image : List ℕ) → T.image site.old ≡ Some image → HasBody first count image) }
    ensures damaged { IsErrOf result LoadFault.Damaged → (T.image site.new ≡ T.image site.old) × LacksBody first count (T.image site.old) }
    ensures memory { IsErrOf result LoadFault.Memory → T.image site.new ≡ T.image site.old }
    ensures told { Became (RedoMakes first count) (T.image site.old) (T.image site.new) }
    ensures said { T.said site.new ≡ T.said site.old }
    ensures stops { StopsLeave T.moment T.left_at (λ now. MadeFrom (RedoMakes first count) now (T.image site.old)) site.old site.new }
    ensures cause { HasCauseFor (T.disk_faults site.old) (T.disk_faults site.new) result LoadFault.DiskFault }
    ensures say_faults { T.say_faults site.new ≡ T.say_faults site.old }
    ensures room { FitsBelow T.room T.disk_faults (last_byte first count) site.old site.new }
{
    let changes = read_body(alloc, site, first, count)?;
    redo_changes(site, first, count, &changes)?;
    Ok(())
}

#[tactic(auto, using(crate::proofs::Calls::exact_stays, crate::proofs::Made::became_later, crate::proofs::OpeningSteps::redo_waits))]
/// Redoes an open journal; fills up the image where the gate is closed. An image whose body lies in full behind
/// its blocks is long enough.
pub(crate) fn settle<T: Site>(
    alloc: Global,
    site: &mut T,
    first: u64,
    count: u32,
) -> Result<(), LoadFault>
    requires behind { 8192 ≤ first }
    requires near { first ≤ 2 ^ 30 }
    requires exact { IsExact (T.image site.old) (T.left_at site.old (T.moment site.old)) }
    ensures done { OnOk result (IsRedone first count (T.image site.old) (T.image site.new)) }
    ensures exact { OnOk result (IsExact (T.image site.new) (T.left_at site.new (T.moment site.new))) }
    ensures sound { OnOk result (IsSound first count (T.image site.old)) }
    ensures damaged { IsErrOf result LoadFault.Damaged → (T.image site.new ≡ T.image site.old) × IsDamaged first count (T.image site.old) }
    ensures memory { IsErrOf result LoadFault.Memory → T.image site.new ≡ T.image site.old }
    ensures told { Became (RedoMakes first count) (T.image site.old) (T.image site.new) }
    ensures said { T.said site.new ≡ T.said site.old }
    ensures stops { StopsLeave T.moment T.left_at (λ now. MadeFrom (RedoMakes first count) now (T.image site.old)) site.old site.new }
    ensures cause { HasCauseFor (T.disk_faults site.old) (T.disk_faults site.new) result LoadFault.DiskFault }
    ensures say_faults { T.say_faults site.new ≡ T.say_faults site.old }
    ensures room { FitsBelow T.room T.disk_faults (last_byte first count) site.old site.new }
{
    if read_gate(site)? {
        redo(alloc, site, first, count)
    } else {
        fill(site, first, count)?;
        Ok(())
    }
}
