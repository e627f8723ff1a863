// The four steps of a commit, and what they write.
//
// The image has the volume's head, the gate's block, other blocks up to the byte `first`, then the blocks of the
// journal, numbered from 0, and behind the last one the body. All numbers of the body are big-endian:
//
//   4 bytes      how many blocks it has, at least 1
//   4 bytes      the number 1
//   4,100 bytes  for each block, in rising order: its number in 4 bytes, and its 4,096 bytes
//
// The gate is the first byte of its block: 1 is open, every other value is closed. A commit is
//
//   body  sync  |  gate 1  sync  |  blocks  sync  |  gate 0  sync
//
// Until the gate is open, a stop leaves the blocks as they were. From then on the body redoes them, however
// much of them was written, so the new blocks are kept. The gate closes once they are on the disk. The last two
// steps are the redo of the journal that is open then, as an opening does it.
ghost use Rattle.std.specs.Prelude.{◌≡◌, ◌+◌, ◌*◌, ◌^◌, ◌<◌, ◌≤◌, ℕ, List, length, OnOk, IsTrue};
ghost use Rattle.hal_base.specs.Fault.{HasCause};
ghost use Rattle.block_journal.specs.Commit.{IsSettled, CommitMakes, HasChanges, last_byte};
ghost use Rattle.block_journal.specs.Device.{Became, MadeFrom, StopsLeave, FitsBelow, IsExact};
ghost use Rattle.block_journal.specs.Redo.{are_changes, body_bytes};

use crate::change::Changes;
use crate::device::{place_of, write_synced};
use crate::redo::redo_changes;
use hal_base::{Failed, Site};

/// Where the gate is.
pub(crate) const GATE: u64 = 4096;

/// Makes the changes, all of them or none at every moment. `body` is that of their journal.
pub(crate) fn commit_changes<T: Site>(
    site: &mut T,
    first: u64,
    count: u32,
    changes: &Changes,
    body: &[u8],
) -> Result<(), Failed>
    requires behind { 8192 ≤ first }
    requires near { first ≤ 2 ^ 30 }
    requires rise { IsTrue (are_changes 0 count changes.now.entries) }
    requires some { 1 ≤ length changes.now.entries }
    requires body { body.now ≡ body_bytes changes.now.entries }
    requires settled { (image : List ℕ) → T.image site.old ≡ Some image → IsSettled first count image }
    requires exact { IsExact (T.image site.old) (T.left_at site.old (T.moment site.old)) }
    ensures done { OnOk result (HasChanges first count changes.now.entries (T.image site.old) (T.image site.new)) }
    ensures exact { OnOk result (IsExact (T.image site.new) (T.left_at site.new (T.moment site.new))) }
    ensures told { Became (CommitMakes first count changes.now.entries) (T.image site.old) (T.image site.new) }
    ensures said { T.said site.new ≡ T.said site.old }
    ensures stops { StopsLeave T.moment T.left_at (λ now. MadeFrom (CommitMakes first count changes.now.entries) now (T.image site.old)) site.old site.new }
    ensures cause { HasCause (T.disk_faults site.old) (T.disk_faults site.new) result }
    ensures say_faults { T.say_faults site.new ≡ T.say_faults site.old }
    ensures room { FitsBelow T.room T.disk_faults (last_byte first count) site.old site.new }
{
    write_synced(site, place_of(first, count), body)?;
    write_synced(site, GATE, &[1])?;
    redo_changes(site, first, count, changes)
}
