// Writes that are on the disk once they have returned.
ghost use Rattle.std.specs.Prelude.{◌≡◌, ◌+◌, ◌-◌, ◌*◌, ◌^◌, ◌<◌, ◌≤◌, ℕ, List, [], ◌∷◌, length, OnOk};
ghost use Rattle.std.specs.Option.{option_map};
ghost use Rattle.hal_base.specs.Disk.{written, Torn};
ghost use Rattle.hal_base.specs.Fault.{HasCause};
ghost use Rattle.hal_base.specs.Stops.{TornFrom};
ghost use Rattle.block_journal.specs.Device.{Became, StopsLeave, FitsBelow, IsExact};
ghost use Rattle.block_journal.specs.Placing.{AreWhole, Places, PlacedFrom};
ghost use Rattle.block_journal.specs.Redo.{journal_start, put_image};

use crate::change::Changes;
use hal_base::{BLOCK, Failed, Site};

#[tactic(auto, using(crate::proofs::Calls::torn_told, crate::proofs::Calls::written_told))]
/// Writes from `at` on, and syncs.
pub(crate) fn write_synced<T: Site>(site: &mut T, at: u64, content: &[u8]) -> Result<(), Failed>
    requires { at + length content.now ≤ 2 ^ 63 - 1 }
    ensures image { OnOk result (T.image site.new ≡ option_map (written at content.now) (T.image site.old)) }
    ensures exact { OnOk result (IsExact (T.image site.new) (T.left_at site.new (T.moment site.new))) }
    ensures told { Became (Torn at (length content.now)) (T.image site.old) (T.image site.new) }
    ensures said { T.said site.new ≡ T.said site.old }
    ensures stops { StopsLeave T.moment T.left_at (λ now. TornFrom now at (length content.now)) site.old site.new }
    ensures cause { HasCause (T.disk_faults site.old) (T.disk_faults site.new) result }
    ensures say_faults { T.say_faults site.new ≡ T.say_faults site.old }
    ensures room { FitsBelow T.room T.disk_faults (at + length content.now) site.old site.new }
{
    site.write_at(at, content)?;
    site.sync()
}

/// Where a block stands in an image whose block 0 is at `first`.
pub(crate) fn place_of(first: u64, number: u32) -> u64
    requires { first ≤ 2 ^ 30 }
    ensures { result ≡ first + 4096 * number }
{
    first + BLOCK as u64 * u64::from(number)
}

/// Writes a block to its place.
fn write_block<T: Site>(
    site: &mut T,
    first: u64,
    count: u32,
    number: u32,
    block: &[u8; BLOCK],
) -> Result<(), Failed>
    requires near { first ≤ 2 ^ 30 }
    requires below { number < count }
    ensures image { OnOk result (T.image site.new ≡ option_map (written (first + 4096 * number) block.now) (T.image site.old)) }
    ensures told { Became (Places first count ((number, block.now) ∷ [])) (T.image site.old) (T.image site.new) }
    ensures said { T.said site.new ≡ T.said site.old }
    ensures stops { StopsLeave T.moment T.left_at (λ now. PlacedFrom now first count ((number, block.now) ∷ [])) site.old site.new }
    ensures cause { HasCause (T.disk_faults site.old) (T.disk_faults site.new) result }
    ensures say_faults { T.say_faults site.new ≡ T.say_faults site.old }
    ensures room { FitsBelow T.room T.disk_faults (journal_start first count) site.old site.new }
{
    site.write_at(place_of(first, number), block)
}

#[tactic(auto, using(crate::proofs::Made::became_still))]
/// Writes the blocks to their places in order, and syncs.
pub(crate) fn write_blocks<T: Site>(
    site: &mut T,
    first: u64,
    count: u32,
    changes: &Changes,
) -> Result<(), Failed>
    requires near { first ≤ 2 ^ 30 }
    requires whole { AreWhole count changes.now.entries }
    ensures image { OnOk result (T.image site.new ≡ option_map (put_image first changes.now.entries) (T.image site.old)) }
    ensures exact { OnOk result (IsExact (T.image site.new) (T.left_at site.new (T.moment site.new))) }
    ensures told { Became (Places first count changes.now.entries) (T.image site.old) (T.image site.new) }
    ensures said { T.said site.new ≡ T.said site.old }
    ensures stops { StopsLeave T.moment T.left_at (λ now. PlacedFrom now first count changes.now.entries) site.old site.new }
    ensures cause { HasCause (T.disk_faults site.old) (T.disk_faults site.new) result }
    ensures say_faults { T.say_faults site.new ≡ T.say_faults site.old }
    ensures room { FitsBelow T.room T.disk_faults (journal_start first count) site.old site.new }
{
    for (number, block) in changes {
        write_block(site, first, count, *number, block)?;
    }
    site.sync()
}
