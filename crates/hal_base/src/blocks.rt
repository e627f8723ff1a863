ghost use Rattle.std.specs.Prelude.{◌≡◌, ◌+◌, ◌-◌, ◌^◌, ◌<◌, ◌≤◌, true, None, Some, min};
ghost use Rattle.std.specs.Prelude.{slice_get, slice_set, IfSome, OnOk, OnErr, IsErr, IsErrOf, IsTrue};
ghost use Rattle.std.specs.Option.{option_map};
ghost use Rattle.hal_base.specs.Fault.{Fails};
ghost use Rattle.hal_base.specs.Stops.{LeavesExactly};
ghost use Rattle.hal_base.specs.StoreCalls.{StoreView, SameStore, AreBlocks};

use crate::{Failed, Live, StageFault};

/// The bytes of a block.
pub const BLOCK: usize = 4096;

/// Blocks of 4,096 bytes, as a list that can be read and changed.
pub trait Blocks: Live {
    /// What is seen of the blocks, and of the store and site that they stand on.
    ghost seen: { Self → StoreView };

    /// What no call changes of the place where the blocks stand: which bytes of a site these are, and the bytes
    /// around them.
    ghost steady: { Self → Self → Type 0 };

    fn count(&self) -> u32
        ensures { result ≡ (seen self.now).number };

    fn fetch(&mut self, n: u32, into: &mut [u8; BLOCK]) -> Result<(), Failed>
        requires live { IsTrue (seen self.old).live }
        requires below { n < (seen self.old).number }
        ensures block { OnOk result (IfSome (seen self.old).list (λ blocks. slice_get blocks n ≡ Some into.new)) }
        ensures list { ((seen self.new).list ≡ (seen self.old).list) × ((seen self.new).clean ≡ (seen self.old).clean) }
        ensures leaves { SameStore (seen self.old) (seen self.new) × steady self.old self.new }
        ensures fetches { (seen self.new).fetches ≡ min ((seen self.old).fetches + 1) (2 ^ 64 - 1) }
        ensures faults { Fails (IsErr result) (seen self.old).disk_faults (seen self.new).disk_faults (seen self.new).live };

    /// Puts a block in the place of one of the list, for the next commit to keep.
    fn stage(&mut self, n: u32, from: &[u8; BLOCK]) -> Result<(), StageFault>
        requires live { IsTrue (seen self.old).live }
        requires below { n < (seen self.old).number }
        ensures list { OnOk result ((seen self.new).list ≡ option_map (λ blocks. slice_set blocks n from.now) (seen self.old).list) }
        ensures unchanged { OnErr result (((seen self.new).list ≡ (seen self.old).list) × ((seen self.new).clean ≡ (seen self.old).clean)) }
        ensures leaves { SameStore (seen self.old) (seen self.new) × steady self.old self.new }
        ensures fetches { (seen self.new).fetches ≡ (seen self.old).fetches }
        ensures faults { Fails (IsErrOf result StageFault.Failed) (seen self.old).disk_faults (seen self.new).disk_faults (seen self.new).live };

    ghost alive: { (blocks : Self) → (seen blocks).live ≡ Self.live blocks };

    ghost shaped: { (blocks : Self) → AreBlocks (seen blocks).number (seen blocks).list × AreBlocks (seen blocks).number (seen blocks).committed };

    /// The list and the committed list are told both, or neither is.
    ghost told_alike: { (blocks : Self) → ((seen blocks).list ≡ None → (seen blocks).committed ≡ None) × ((seen blocks).committed ≡ None → (seen blocks).list ≡ None) };

    ghost clean_is: { (blocks : Self) → (seen blocks).clean ≡ true → (seen blocks).list ≡ (seen blocks).committed };

    /// What the image stands for as it reads is what was committed, as long as the blocks are live.
    ghost stands: { (blocks : Self) → (seen blocks).live ≡ true → (seen blocks).standing ≡ (seen blocks).committed };

    /// A stop of live blocks at this moment leaves what was committed and what was said.
    ghost exact: { (blocks : Self) → (seen blocks).live ≡ true → LeavesExactly (seen blocks).moment (seen blocks).left_at (seen blocks).committed (seen blocks).said };

    ghost steady_none: { (blocks : Self) → steady blocks blocks };

    ghost steady_then: { (a b c : Self) → steady a b → steady b c → steady a c };
}
