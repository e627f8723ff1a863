// What takes load rows, one after another.
ghost use Rattle.std.specs.Prelude.{◌≡◌, ℕ, Option, IfOk, IfSome, IsErrOf, IsTrue, OnErr};
ghost use Rattle.hal_base.specs.Fault.{Fails};
ghost use Rattle.hal_schema.specs.declared.schema.Schema.{Schema};
ghost use Rattle.hal_schema.specs.Forest.{has_length};
ghost use Rattle.hal_loader.specs.Placing.{coming};
ghost use Rattle.hal_loader.specs.Refusals.{may_be_taken};
ghost use Rattle.hal_loader.specs.Taker.{TakerView, Takes, LooksForRoot, IsEmpty};

use hal_base::{Bytes, Ilk, Live};

/// Why a row wasn't taken.
#[derive(Clone, Copy, Debug, PartialEq, Eq)]
pub enum TakeFault {
    /// An index has the key of an entry of this row already.
    Twice,
    /// Fewer blocks are free than the row may take.
    NoRoom { need: u32 },
    Failed,
    Memory,
}

/// Takes load rows, one after another. Where the rows aren't told, calls end and their faults have causes, and nothing is
/// claimed of what they answer.
pub trait RowTaker: Live {
    /// What no call changes.
    ghost schema: { Self → Schema };

    /// What is seen of the taker.
    ghost seen: { Self → TakerView };

    /// What no call changes of the place where the taker keeps its rows.
    ghost steady: { Self → Self → Type 0 };

    /// Whether there is no row.
    fn is_empty(&self) -> bool
        ensures { IfSome (seen self.now).rows (λ rows. IsEmpty result rows) };

    /// Whether a root has this key.
    fn has_root(&mut self, key: &[u8]) -> Result<bool, TakeFault>
        requires { IsTrue (seen self.old).live }
        ensures looks { IfOk result (LooksForRoot (schema self.old).types key.now (seen self.old) (seen self.new)) }
        ensures faults { Fails (IsErrOf result TakeFault.Failed) (seen self.old).faults (seen self.new).faults (seen self.new).live }
        ensures schema { schema self.new ≡ schema self.old }
        ensures steady { steady self.old self.new };

    /// Puts a row with this content below a parent, behind its twins (a PHDAM root at its place by key), and answers the
    /// name that it gave it.
    fn take(&mut self, parent: Option<Ilk>, code: u8, content: &Bytes) -> Result<Ilk, TakeFault>
        requires live { IsTrue (seen self.old).live }
        requires long { IsTrue (has_length (schema self.old).types (coming parent code content.now)) }
        requires fits { IfSome (seen self.old).rows (λ rows. IsTrue (may_be_taken (schema self.old) rows (coming parent code content.now))) }
        ensures takes { Takes (schema self.old) (coming parent code content.now) (seen self.old) (seen self.new) result }
        ensures faults { Fails (IsErrOf result TakeFault.Failed) (seen self.old).faults (seen self.new).faults (seen self.new).live }
        ensures schema { schema self.new ≡ schema self.old }
        ensures steady { steady self.old self.new };

    ghost alive: { (taker : Self) → (seen taker).live ≡ Self.live taker };

    ghost steady_none: { (taker : Self) → steady taker taker };

    ghost steady_then: { (a b c : Self) → steady a b → steady b c → steady a c };
}
