// What holds a state on blocks.
ghost use Rattle.std.specs.Prelude.{◌≡◌, true, IfOk, IfSome, IsErrOf, IsTrue};
ghost use Rattle.volume_keeper.specs.KeeperView.{KeeperView, DiskFails, IsHeld, LeavesCommitted, is_clear, told_free};

use hal_base::{Bytes, Failed, JournalFault, List, Live, PartState, StageFault};
use hal_schema::Row;

/// What is to be said of an event once it is kept.
#[derive(Drop)]
pub struct Staged {
    /// The text of the reply, with its line end; empty for a silent line.
    pub reply: Bytes,
    /// Whether the line is done. False for a FINISH that has more units.
    pub done: bool,
}

/// A state that blocks hold: events are staged on it, and then committed.
pub trait Keeper: Live {
    ghost use Rattle.script_runs.specs.Taken.{Meaning};
    ghost use Rattle.volume_keeper.specs.Calls.{StagesEvent, StagesNone, LeavesKept, CommitsState, ForgetsState, SaysState, OnlyLooks};

    /// What a definition says of the rows that lines speak of.
    type Schema;

    /// What lines change.
    type State;

    /// What lines mean under a schema, which blocks hold a state, and the rows and partition states of one.
    ghost meaning: { Self.Schema → Meaning Self.State };

    ghost schema: { Self → Self.Schema };

    /// What is seen of the keeper.
    ghost seen: { Self → KeeperView Self.State };

    /// What no call changes of the place where the blocks stand.
    ghost steady: { Self → Self → Type 0 };

    /// Does one event of a line on the state, for the next commit to keep. Want of memory drops what this call staged.
    fn stage(&mut self, script: Option<u16>, number: u32, text: &[u8]) -> Result<Staged, StageFault>
        requires { IsTrue (is_clear (seen self.old)) }
        ensures staged { IfOk result (StagesEvent (meaning (schema self.old)) script number text.now (seen self.old) (seen self.new)) }
        ensures memory { IsErrOf result StageFault.Memory → StagesNone (seen self.old) (seen self.new) }
        ensures leaves { LeavesKept (seen self.old) (seen self.new) × steady self.old self.new × (schema self.new ≡ schema self.old) }
        ensures faults { DiskFails (IsErrOf result StageFault.Failed) (seen self.old) (seen self.new) };

    /// Makes the state the one that a stop leaves.
    fn commit(&mut self) -> Result<(), JournalFault>
        requires { IsTrue (seen self.old).store.live }
        ensures commits { CommitsState result (seen self.old) (seen self.new) }
        ensures leaves { steady self.old self.new × (schema self.new ≡ schema self.old) }
        ensures faults { DiskFails (IsErrOf result JournalFault.DiskFault) (seen self.old) (seen self.new) };

    /// Goes back to the state of the last commit.
    fn forget(&mut self)
        requires { IsTrue (seen self.old).store.live }
        ensures forgets { ForgetsState (seen self.old) (seen self.new) }
        ensures leaves { steady self.old self.new × (schema self.new ≡ schema self.old) };

    /// Says on the site on which the blocks stand.
    fn say(&mut self, text: &[u8]) -> Result<(), Failed>
        requires { IsTrue (seen self.old).store.live }
        ensures says { SaysState result text.now (seen self.old) (seen self.new) }
        ensures leaves { steady self.old self.new × (schema self.new ≡ schema self.old) };

    /// All rows in hierarchic sequence, those that are staged too.
    fn rows(&mut self) -> Result<List<Row>, StageFault>
        requires { IsTrue (seen self.old).store.live }
        ensures rows { IfOk result (λ rows. IfSome (seen self.old).state (λ state. rows ≡ (meaning (schema self.old)).rows state)) }
        ensures looks { OnlyLooks (seen self.old) (seen self.new) }
        ensures leaves { steady self.old self.new × (schema self.new ≡ schema self.old) }
        ensures faults { DiskFails (IsErrOf result StageFault.Failed) (seen self.old) (seen self.new) };

    /// How each partition stands, in the order of the schema.
    fn states(&mut self) -> Result<List<PartState>, StageFault>
        requires { IsTrue (seen self.old).store.live }
        ensures states { IfOk result (λ states. IfSome (seen self.old).state (λ state. states ≡ (meaning (schema self.old)).parts state)) }
        ensures looks { OnlyLooks (seen self.old) (seen self.new) }
        ensures leaves { steady self.old self.new × (schema self.new ≡ schema self.old) }
        ensures faults { DiskFails (IsErrOf result StageFault.Failed) (seen self.old) (seen self.new) };

    /// How many blocks are free.
    fn free_now(&self) -> u32
        ensures { result ≡ told_free (seen self.now) };

    ghost alive: { (keeper : Self) → (seen keeper).store.live ≡ Self.live keeper };

    /// The blocks of a live keeper hold its states.
    ghost held: { (keeper : Self) → (seen keeper).store.live ≡ true → IsHeld (meaning (schema keeper)).keeping (seen keeper) };

    /// A stop of a live keeper leaves what was committed and what was said.
    ghost exact: { (keeper : Self) → (seen keeper).store.live ≡ true
        → LeavesCommitted (seen keeper) };

    ghost steady_none: { (keeper : Self) → steady keeper keeper };

    ghost steady_then: { (a b c : Self) → steady a b → steady b c → steady a c };
}
