// The taker of lines over a keeper.
ghost use Rattle.std.specs.Prelude.{◌≡◌, IfErr, IfOk, IsErrOf, IsTrue, refl};
ghost use Rattle.volume_keeper.specs.Calls.{LeavesKept, StagesEvent, StagesNone, SaysState};
ghost use Rattle.volume_keeper.specs.KeeperView.{DiskFails, is_clear};
ghost use Rattle.volume_keeper.specs.Steps.{Keeps, engine_fault};

use crate::{Keeper, Staged};
use hal_base::{JournalFault, List, Live, PartState, StageFault};
use hal_schema::Row;
use script_runs::{EngineFault, LineTaker};

/// Takes the lines of a script over a keeper: each event is staged, committed, and then said.
#[derive(Drop)]
pub struct KeptLines<K> {
    keeper: K,
}

impl<K: Keeper> KeptLines<K> {
    ghost use Rattle.volume_keeper.specs.KeptLines.{keeper_of};

    pub fn new(keeper: K) -> KeptLines<K>
        ensures { keeper_of result ≡ keeper }
    {
        KeptLines { keeper }
    }

    pub fn into_keeper(self) -> K
        ensures { result ≡ keeper_of self }
    {
        self.keeper
    }

    fn stage(
        &mut self,
        script: Option<u16>,
        number: u32,
        text: &[u8],
    ) -> Result<Staged, EngineFault>
        requires { IsTrue (is_clear (K.seen self.old.keeper)) }
        ensures staged { IfOk result
            (StagesEvent (K.meaning (K.schema self.old.keeper)) script number text.now (K.seen self.old.keeper) (K.seen self.new.keeper)) }
        ensures memory { IsErrOf result EngineFault.Memory → StagesNone (K.seen self.old.keeper) (K.seen self.new.keeper) }
        ensures says_none { IsErrOf result EngineFault.SayFault → ⊥ }
        ensures leaves { LeavesKept (K.seen self.old.keeper) (K.seen self.new.keeper)
            × K.steady self.old.keeper self.new.keeper × (K.schema self.new.keeper ≡ K.schema self.old.keeper) }
        ensures faults { DiskFails (IsErrOf result EngineFault.DiskFault) (K.seen self.old.keeper) (K.seen self.new.keeper) }
    {
        match self.keeper.stage(script, number, text) {
            Ok(staged) => Ok(staged),
            Err(why) => Err(fault_of(why)),
        }
    }

    /// Commits what is staged, or drops it where memory is wanting.
    fn keep(&mut self) -> Result<(), EngineFault>
        requires { IsTrue (K.seen self.old.keeper).store.live }
        ensures keeps { Keeps result (K.seen self.old.keeper) (K.seen self.new.keeper) }
        ensures leaves { K.steady self.old.keeper self.new.keeper × (K.schema self.new.keeper ≡ K.schema self.old.keeper) }
    {
        match self.keeper.commit() {
            Ok(()) => Ok(()),
            Err(JournalFault::DiskFault) => Err(EngineFault::DiskFault),
            Err(JournalFault::Memory) => {
                self.keeper.forget();
                Err(EngineFault::Memory)
            }
        }
    }

    /// Says a reply; a silent line has none.
    fn tell(&mut self, text: &[u8]) -> Result<(), EngineFault>
        requires { IsTrue (K.seen self.old.keeper).store.live }
        ensures says { SaysState result text.now (K.seen self.old.keeper) (K.seen self.new.keeper) }
        ensures fault { IfErr result (λ fault. fault ≡ EngineFault.SayFault) }
        ensures leaves { K.steady self.old.keeper self.new.keeper × (K.schema self.new.keeper ≡ K.schema self.old.keeper) }
    {
        if text.is_empty() {
            return Ok(());
        }
        match self.keeper.say(text) {
            Ok(()) => Ok(()),
            Err(_) => Err(EngineFault::SayFault),
        }
    }
}

fn fault_of(why: StageFault) -> EngineFault
    ensures { result ≡ engine_fault why }
{
    match why {
        StageFault::Failed => EngineFault::DiskFault,
        StageFault::Memory => EngineFault::Memory,
    }
}

impl<K: Keeper> Live for KeptLines<K> {
    ghost live = { λ lines. (K.seen lines.keeper).store.live };

    fn is_live(&self) -> bool {
        self.keeper.is_live()
    }
}

impl<K: Keeper> LineTaker for KeptLines<K> {
    ghost use Rattle.volume_keeper.specs.TakerOf.{taker_of};
    ghost use Rattle.volume_keeper.specs.KeptLines.{keeper_of};
    ghost use Rattle.volume_keeper.specs.Laws.{leaves_told};

    type Schema = K::Schema;

    type State = K::State;

    ghost meaning = { λ schema. K.meaning schema };

    ghost schema = { λ lines. K.schema lines.keeper };

    ghost seen = { λ lines. taker_of (K.seen lines.keeper) };

    ghost steady = { λ a b. K.steady (keeper_of a) (keeper_of b) };

    ghost units_left = { λ lines. (K.seen lines.keeper).units };

    ghost alive = { λ lines. refl };

    ghost leaves_told = { λ lines ready. leaves_told (K.meaning (K.schema lines.keeper)).keeping (K.seen lines.keeper)
        (K.held lines.keeper) (K.exact lines.keeper) ready };

    ghost steady_none = { λ lines. K.steady_none lines.keeper };

    ghost steady_then = { λ a b c first second. K.steady_then a.keeper b.keeper c.keeper first second };

    fn line(&mut self, script: Option<u16>, number: u32, text: &[u8]) -> Result<bool, EngineFault> {
        let staged = self.stage(script, number, text)?;
        self.keep()?;
        self.tell(staged.reply.as_slice())?;
        Ok(staged.done)
    }

    fn rows(&mut self) -> Result<List<Row>, EngineFault> {
        match self.keeper.rows() {
            Ok(rows) => Ok(rows),
            Err(why) => Err(fault_of(why)),
        }
    }

    fn states(&mut self) -> Result<List<PartState>, EngineFault> {
        match self.keeper.states() {
            Ok(states) => Ok(states),
            Err(why) => Err(fault_of(why)),
        }
    }

    fn free_now(&self) -> u32 {
        self.keeper.free_now()
    }
}
