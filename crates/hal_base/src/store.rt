ghost use Rattle.std.specs.Prelude.{◌≡◌, IsErrOf, IsTrue};
ghost use Rattle.hal_base.specs.Fault.{Fails};
ghost use Rattle.hal_base.specs.StoreCalls.{Commits, Forgets, Says};

use crate::{Blocks, Failed, JournalFault};

/// Blocks that are kept through a stop of the machine.
pub trait Store: Blocks {
    /// Makes the list the committed one. A stop within it, or after its `DiskFault`, leaves the list that was
    /// committed before or the new one.
    fn commit(&mut self) -> Result<(), JournalFault>
        requires { IsTrue (Self.seen self.old).live }
        ensures commits { Commits result (Self.seen self.old) (Self.seen self.new) }
        ensures steady { Self.steady self.old self.new }
        ensures faults { Fails (IsErrOf result JournalFault.DiskFault) (Self.seen self.old).disk_faults (Self.seen self.new).disk_faults (Self.seen self.new).live };

    /// Goes back to the list after the last commit.
    fn forget(&mut self)
        requires { IsTrue (Self.seen self.old).live }
        ensures forgets { Forgets (Self.seen self.old) (Self.seen self.new) }
        ensures steady { Self.steady self.old self.new };

    /// Says by the site. It changes no block, and what is staged stays staged.
    fn say(&mut self, text: &[u8]) -> Result<(), Failed>
        requires { IsTrue (Self.seen self.old).live }
        ensures says { Says result text.now (Self.seen self.old) (Self.seen self.new) }
        ensures steady { Self.steady self.old self.new };
}
