// Blocks that are looked at, and not changed.
ghost use Rattle.std.specs.Prelude.{◌≡◌, ◌<◌, Some, slice_get, IfSome, OnOk, IsErrOf, IsTrue};
ghost use Rattle.hal_base.specs.Fault.{Rose};
ghost use Rattle.data_set_pairs.specs.Stays.{Looks};

use crate::VolWhy;
use hal_base::{BLOCK, Blocks, Failed};

/// Fetches a block. Nothing changes but the clock and the counts.
pub(crate) fn look<B: Blocks>(blocks: &mut B, n: u32, into: &mut [u8; BLOCK]) -> Result<(), VolWhy>
    requires live { IsTrue (B.seen blocks.old).live }
    requires below { n < (B.seen blocks.old).number }
    ensures block { OnOk result (IfSome (B.seen blocks.old).list (λ list. slice_get list n ≡ Some into.new)) }
    ensures looks { Looks (B.steady blocks.old blocks.new) (B.seen blocks.old) (B.seen blocks.new) }
    ensures failed { IsErrOf result VolWhy.Failed → Rose (B.seen blocks.old).disk_faults (B.seen blocks.new).disk_faults }
    ensures only { (why : VolWhy) → IsErrOf result why → why ≡ VolWhy.Failed }
    ensures live { OnOk result (IsTrue (B.seen blocks.new).live) }
{
    blocks.fetch(n, into)?;
    Ok(())
}
