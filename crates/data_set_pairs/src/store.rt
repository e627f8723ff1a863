// A volume over blocks that are kept through a stop of the machine.
ghost use Rattle.std.specs.Prelude.{◌≡◌, OnOk, OnErr, IsErrOf, IsTrue};
ghost use Rattle.hal_base.specs.Fault.{Fails};
ghost use Rattle.hal_base.specs.StoreCalls.{Commits, Forgets, Says};
ghost use Rattle.data_set_pairs.specs.Kept.{held, last_held};

use crate::Volume;
use crate::kept::{take_back, take_table_back};
use hal_base::{Failed, JournalFault, Store};

impl<B: Store> Volume<B> {
    /// Makes the blocks the committed ones. A stop within it, or after its `DiskFault`, leaves those that were committed
    /// before or these. It takes no memory of its own: what `forget` goes back to is then what the volume holds.
    pub fn commit(&mut self) -> Result<(), JournalFault>
        requires { IsTrue (B.seen self.old.blocks).live }
        ensures commits { Commits result (B.seen self.old.blocks) (B.seen self.new.blocks) }
        ensures steady { B.steady self.old.blocks self.new.blocks }
        ensures faults { Fails (IsErrOf result JournalFault.DiskFault) (B.seen self.old.blocks).disk_faults (B.seen self.new.blocks).disk_faults
            (B.seen self.new.blocks).live }
        ensures held { held self.new.control self.new.indexes self.new.states self.new.table
            ≡ held self.old.control self.old.indexes self.old.states self.old.table }
        ensures kept { OnOk result (last_held self.new.control self.new.indexes self.new.kept_states self.new.states self.new.kept_table self.new.table
            ≡ held self.old.control self.old.indexes self.old.states self.old.table) }
        ensures stays { OnErr result (last_held self.new.control self.new.indexes self.new.kept_states self.new.states self.new.kept_table
            self.new.table ≡ last_held self.old.control self.old.indexes self.old.kept_states self.old.states self.old.kept_table self.old.table) }
    {
        match self.blocks.commit() {
            Ok(()) => {
                self.kept_states = None;
                self.kept_table = None;
                Ok(())
            }
            Err(fault) => Err(fault),
        }
    }

    /// Goes back to the last commit: the blocks, the states and the pages are those of then. It takes no memory.
    pub fn forget(&mut self)
        requires { IsTrue (B.seen self.old.blocks).live }
        ensures forgets { Forgets (B.seen self.old.blocks) (B.seen self.new.blocks) }
        ensures steady { B.steady self.old.blocks self.new.blocks }
        ensures held { held self.new.control self.new.indexes self.new.states self.new.table
            ≡ last_held self.old.control self.old.indexes self.old.kept_states self.old.states self.old.kept_table self.old.table }
        ensures kept { last_held self.new.control self.new.indexes self.new.kept_states self.new.states self.new.kept_table self.new.table
            ≡ last_held self.old.control self.old.indexes self.old.kept_states self.old.states self.old.kept_table self.old.table }
    {
        self.blocks.forget();
        take_back(&mut self.states, &mut self.kept_states);
        take_table_back(&mut self.table, &mut self.kept_table);
    }

    /// Says by the site. It changes no block, and what is staged stays staged. It takes no memory.
    pub fn say(&mut self, text: &[u8]) -> Result<(), Failed>
        requires { IsTrue (B.seen self.old.blocks).live }
        ensures says { Says result text.now (B.seen self.old.blocks) (B.seen self.new.blocks) }
        ensures steady { B.steady self.old.blocks self.new.blocks }
        ensures held { held self.new.control self.new.indexes self.new.states self.new.table
            ≡ held self.old.control self.old.indexes self.old.states self.old.table }
        ensures kept { last_held self.new.control self.new.indexes self.new.kept_states self.new.states self.new.kept_table self.new.table
            ≡ last_held self.old.control self.old.indexes self.old.kept_states self.old.states self.old.kept_table self.old.table }
    {
        self.blocks.say(text)
    }
}
