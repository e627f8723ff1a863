// What takes the lines of a script, one event after another.
ghost use Rattle.std.specs.Prelude.{◌≡◌, ◌<◌, ℕ, true, false, IfOk, IfErr, IfSome, IsTrue};
ghost use Rattle.script_runs.specs.Faults.{EndsLines, Looks};
ghost use Rattle.script_runs.specs.TakerView.{TakerView, LeavesTold, is_ready};
ghost use Rattle.script_runs.specs.declared.taker.EngineFault.TheVariants as engine;

use hal_base::{List, Live, Memory, PartState};
use hal_schema::Row;

/// Why an event was cut short.
#[derive(Clone, Copy, Debug, PartialEq, Eq)]
pub enum EngineFault {
    /// A read, write or sync of the site failed.
    DiskFault,
    /// A say of the site failed.
    SayFault,
    Memory,
}

impl From<Memory> for EngineFault {
    ghost from_gives = { λ _ e. e ≡ engine.Memory };

    fn from(_: Memory) -> EngineFault {
        EngineFault::Memory
    }
}

/// Takes one line of a script at a time.
pub trait LineTaker: Live {
    ghost use Rattle.script_runs.specs.Taken.{Meaning, TookOne, CutOne};

    /// What a definition says of the rows that lines speak of.
    type Schema;

    /// What lines change.
    type State;

    /// What lines mean under a schema, which blocks hold a state, and the rows and partition states of one.
    ghost meaning: { Self.Schema → Meaning Self.State };

    ghost schema: { Self → Self.Schema };

    /// What is seen of the taker.
    ghost seen: { Self → TakerView Self.State };

    /// What no call changes of the place where the taker keeps its state.
    ghost steady: { Self → Self → Type 0 };

    /// How many more units the line at hand may have at most.
    ghost units_left: { Self → ℕ };

    /// Does one event of the line, and says its reply. False where the line isn't done: a FINISH that has more
    /// units, and is to be taken again.
    fn line(&mut self, script: Option<u16>, number: u32, text: &[u8]) -> Result<bool, EngineFault>
        requires { IsTrue (is_ready (seen self.old)) }
        ensures took { IfOk result (TookOne (meaning (schema self.old)) script number text.now (seen self.old) (seen self.new)) }
        ensures cut { IfErr result (CutOne (meaning (schema self.old)) script number text.now (seen self.old) (seen self.new)) }
        ensures schema { schema self.new ≡ schema self.old }
        ensures steady { steady self.old self.new }
        ensures nearer { result ≡ Ok false → units_left self.new < units_left self.old }
        ensures ends { EndsLines result (seen self.old) (seen self.new) };

    /// All rows in hierarchic sequence, those of calls that are staged too.
    fn rows(&mut self) -> Result<List<Row>, EngineFault>
        requires { IsTrue (seen self.old).live }
        ensures rows { IfOk result (λ rows. IfSome (seen self.old).state (λ state. rows ≡ (meaning (schema self.old)).rows state)) }
        ensures looks { Looks result (seen self.old) (seen self.new) }
        ensures schema { schema self.new ≡ schema self.old }
        ensures steady { steady self.old self.new };

    /// How each partition stands, in the order of the schema.
    fn states(&mut self) -> Result<List<PartState>, EngineFault>
        requires { IsTrue (seen self.old).live }
        ensures states { IfOk result (λ states. IfSome (seen self.old).state (λ state. states ≡ (meaning (schema self.old)).parts state)) }
        ensures looks { Looks result (seen self.old) (seen self.new) }
        ensures schema { schema self.new ≡ schema self.old }
        ensures steady { steady self.old self.new };

    /// How many blocks are free.
    fn free_now(&self) -> u32
        ensures { result ≡ (seen self.now).free };

    ghost alive: { (taker : Self) → (seen taker).live ≡ Self.live taker };

    /// Where nothing is staged, a stop leaves just what is told.
    ghost leaves_told: { (taker : Self) → IsTrue (is_ready (seen taker)) → LeavesTold (meaning (schema taker)).keeping (seen taker) };

    ghost steady_none: { (taker : Self) → steady taker taker };

    ghost steady_then: { (a b c : Self) → steady a b → steady b c → steady a c };
}
