// The body of an open journal, as an opening reads it.
ghost use Rattle.std.specs.Prelude.{◌≡◌, ◌+◌, ◌-◌, ◌*◌, ◌^◌, ◌<◌, ◌≤◌, ℕ, List, Option, Some, length, IfOk, IfSome, IsErrOf, IsTrue, true};
ghost use Rattle.hal_base.specs.Fault.{HasCause, HasCauseFor};
ghost use Rattle.block_journal.specs.Device.{Looks};
ghost use Rattle.block_journal.specs.Body.{AreThere, HasBody};
ghost use Rattle.block_journal.specs.Reads.{ReadsWhole, ReadsNumber, ReadsChange, ReadsChanges, ReadsSize, ReadsBody, LacksBody};
ghost use Rattle.block_journal.specs.Redo.{changes_at, are_changes};

use crate::change::Changes;
use crate::device::place_of;
use crate::fault::LoadFault;
use hal_base::{BLOCK, Failed, Site};
use std::alloc::Global;
use std::collections::BTreeMap;

/// Fills the buffer with the bytes that stand at `at`, and answers whether all of it stands there.
fn read_whole<T: Site>(site: &mut T, at: u64, bytes: &mut [u8]) -> Result<bool, Failed>
    requires near { at + length bytes.old ≤ 2 ^ 63 - 1 }
    requires some { 0 < length bytes.old }
    ensures whole { IfOk result (λ whole. ReadsWhole at (T.image site.old) whole bytes.new) }
    ensures length { length bytes.new ≡ length bytes.old }
    ensures leaves { Looks T.image T.said T.moment T.left_at T.disk_faults T.say_faults T.room site.old site.new }
    ensures cause { HasCause (T.disk_faults site.old) (T.disk_faults site.new) result }
{
    let read = site.read_at(at, bytes)?;
    Ok(read == bytes.len())
}

/// The number of four bytes that stands at `at`, if it stands there in full.
fn read_number<T: Site>(site: &mut T, at: u64) -> Result<Option<u32>, Failed>
    requires { at + 4 ≤ 2 ^ 63 - 1 }
    ensures number { IfOk result (λ number. ReadsNumber at (T.image site.old) number) }
    ensures leaves { Looks T.image T.said T.moment T.left_at T.disk_faults T.say_faults T.room site.old site.new }
    ensures cause { HasCause (T.disk_faults site.old) (T.disk_faults site.new) result }
{
    let mut bytes = [0u8; 4];
    if read_whole(site, at, &mut bytes)? {
        Ok(Some(u32::from_be_bytes(bytes)))
    } else {
        Ok(None)
    }
}

/// The number and the block of the change that stands at `at`, if it stands there in full.
fn read_change<T: Site>(site: &mut T, at: u64) -> Result<Option<(u32, [u8; BLOCK])>, Failed>
    requires { at + 4100 ≤ 2 ^ 63 - 1 }
    ensures change { IfOk result (λ change. ReadsChange at (T.image site.old) change) }
    ensures whole { IfOk result (λ change. IfSome change (λ change. length change.1 ≡ BLOCK)) }
    ensures leaves { Looks T.image T.said T.moment T.left_at T.disk_faults T.say_faults T.room site.old site.new }
    ensures cause { HasCause (T.disk_faults site.old) (T.disk_faults site.new) result }
{
    let Some(number) = read_number(site, at)? else {
        return Ok(None);
    };
    let mut block = [0u8; BLOCK];
    if read_whole(site, at + 4, &mut block)? {
        Ok(Some((number, block)))
    } else {
        Ok(None)
    }
}

/// How many changes the body has, by its first eight bytes.
fn read_size<T: Site>(site: &mut T, first: u64, count: u32) -> Result<u32, LoadFault>
    requires near { first ≤ 2 ^ 30 }
    ensures size { IfOk result (λ n. ReadsSize first count (T.image site.old) n) }
    ensures damaged { IsErrOf result LoadFault.Damaged → LacksBody first count (T.image site.old) }
    ensures leaves { Looks T.image T.said T.moment T.left_at T.disk_faults T.say_faults T.room site.old site.new }
    ensures cause { HasCauseFor (T.disk_faults site.old) (T.disk_faults site.new) result LoadFault.DiskFault }
{
    let at = place_of(first, count);
    let Some(n) = read_number(site, at)? else {
        return Err(LoadFault::Damaged);
    };
    let Some(one) = read_number(site, at + 4)? else {
        return Err(LoadFault::Damaged);
    };
    if one != 1 || n < 1 || count < n {
        return Err(LoadFault::Damaged);
    }
    Ok(n)
}

/// So many changes from `at` on, if they stand there in full and their numbers rise and are in range.
fn read_changes<T: Site>(
    alloc: Global,
    site: &mut T,
    at: u64,
    count: u32,
    n: u32,
) -> Result<Changes, LoadFault>
    requires near { at ≤ 2 ^ 46 }
    requires within { (image : List ℕ) → T.image site.old ≡ Some image → at ≤ length image }
    ensures changes { IfOk result (λ changes. ReadsChanges at n count (T.image site.old) changes.entries) }
    ensures rise { IfOk result (λ changes. IsTrue (are_changes 0 count changes.entries)) }
    ensures damaged { IsErrOf result LoadFault.Damaged → (image : List ℕ) → T.image site.old ≡ Some image → AreThere at n count image → ⊥ }
    ensures leaves { Looks T.image T.said T.moment T.left_at T.disk_faults T.say_faults T.room site.old site.new }
    ensures cause { HasCauseFor (T.disk_faults site.old) (T.disk_faults site.new) result LoadFault.DiskFault }
{
    let mut changes = BTreeMap::new(alloc);
    let mut least = 0u32;
    for k in 0..n {
        let Some(change) = read_change(site, at + 4100 * u64::from(k))? else {
            return Err(LoadFault::Damaged);
        };
        let (number, block) = change;
        if number < least || count <= number {
            return Err(LoadFault::Damaged);
        }
        least = number + 1;
        changes.insert(number, block)?;
    }
    Ok(changes)
}

/// The changes of the body. One that breaks its layout is damaged.
pub(crate) fn read_body<T: Site>(
    alloc: Global,
    site: &mut T,
    first: u64,
    count: u32,
) -> Result<Changes, LoadFault>
    requires near { first ≤ 2 ^ 30 }
    ensures body { IfOk result (λ changes. ReadsBody first count (T.image site.old) changes.entries) }
    ensures rise { IfOk result (λ changes. IsTrue (are_changes 0 count changes.entries)) }
    ensures damaged { IsErrOf result LoadFault.Damaged → LacksBody first count (T.image site.old) }
    ensures leaves { Looks T.image T.said T.moment T.left_at T.disk_faults T.say_faults T.room site.old site.new }
    ensures cause { HasCauseFor (T.disk_faults site.old) (T.disk_faults site.new) result LoadFault.DiskFault }
{
    let n = read_size(site, first, count)?;
    read_changes(alloc, site, place_of(first, count) + 8, count, n)
}
