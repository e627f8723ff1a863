ghost use Rattle.std.specs.Prelude.{◌≡◌, ◌↔◌, ◌+◌, ◌-◌, ◌^◌, ◌<◌, ◌≤◌, ◌++◌, ◌∷◌, [], ℕ, None, Some, length, min, replicate};
ghost use Rattle.std.specs.Prelude.{slice_get, slice_set, IfOk, IfSome, OnOk, OnErr, IsErr, IsErrOf, IsTrue, MatchResult};
ghost use Rattle.std.specs.Option.{option_map};
ghost use Rattle.hal_base.specs.Pages.{empty_page, page_head, rises_from, SameHead};
ghost use Rattle.hal_base.specs.StoreCalls.{AreBlocks};
ghost use Rattle.hal_base.specs.ShelfCalls.{ShelfView, Keeps, SameShelf, GrownBy, OnlyReads, OnlyChanges};

use crate::{BLOCK, Failed, Live, PageFault, StageFault, put16};

/// A data set: its partition, the reorganization number of its blocks, and its letter. A secondary index is
/// the partition 32,768 and its place, of number 0 and letter `A`.
#[derive(Clone, Copy, Debug, PartialEq, Eq)]
pub struct SetId {
    pub part: u16,
    pub number: u16,
    pub letter: u8,
}

/// The first eight bytes of a page, and zeros behind.
fn headed(set: SetId, kind: u8, page: u16) -> [u8; BLOCK]
    ensures { result ≡ page_head kind set page ++ replicate 4088 0 }
{
    let mut block = [0; BLOCK];
    block[0] = kind;
    block[1] = set.letter;
    put16(&mut block, 2, set.part);
    put16(&mut block, 4, set.number);
    put16(&mut block, 6, page);
    block
}

/// A page of a data set without cells (kind 1) or rows (kind 2).
pub fn empty_page(set: SetId, kind: u8, page: u16) -> [u8; BLOCK]
    ensures { result ≡ empty_page kind set page }
{
    let mut block = headed(set, kind, page);
    if kind == 1 {
        put16(&mut block, 18, 4080);
    }
    block
}

/// Blocks by data set and page. Where the blocks tell no content, the pages aren't told either; which blocks
/// they are is told always.
pub trait Shelf: Live {
    ghost use Rattle.hal_base.specs.declared.pages.SetId.{SetId};

    /// What is seen of the shelf.
    ghost seen: { Self → ShelfView };

    /// What no call of a shelf changes: what was committed and said, what a stop may leave, and the blocks of
    /// no data set.
    ghost steady: { Self → Self → Type 0 };

    fn pages(&self, set: SetId) -> u32
        ensures { result ≡ length ((seen self.now).places set) };

    fn fetch_page(&mut self, set: SetId, n: u16, into: &mut [u8; BLOCK]) -> Result<(), Failed>
        requires live { IsTrue (seen self.old).live }
        requires below { n < length ((seen self.old).places set) }
        ensures page { OnOk result (IfSome ((seen self.old).pages set) (λ pages. slice_get pages n ≡ Some into.new)) }
        ensures leaves { OnlyReads 1 (steady self.old self.new) (IsErr result) (seen self.old) (seen self.new) }
        ensures fetches { (seen self.new).fetches ≡ min ((seen self.old).fetches + 1) (2 ^ 64 - 1) };

    /// Puts a page in the place of one, with the same head but for the count of rows.
    fn stage_page(&mut self, set: SetId, n: u16, from: &[u8; BLOCK]) -> Result<(), StageFault>
        requires live { IsTrue (seen self.old).live }
        requires below { n < length ((seen self.old).places set) }
        requires head { IfSome ((seen self.old).pages set) (λ pages. IfSome (slice_get pages n) (λ page. SameHead page from.now)) }
        ensures page { OnOk result ((seen self.new).pages set ≡ option_map (λ pages. slice_set pages n from.now) ((seen self.old).pages set)) }
        ensures unchanged { OnErr result (SameShelf (seen self.old) (seen self.new)) }
        ensures leaves { OnlyChanges set (steady self.old self.new) (IsErrOf result StageFault.Failed) (seen self.old) (seen self.new) }
        ensures fetches { (seen self.new).fetches ≡ (seen self.old).fetches };

    /// Adds an empty page to a data set, and answers its number. It takes the free block of least number.
    fn grow(&mut self, set: SetId, kind: u8) -> Result<u16, PageFault>
        requires live { IsTrue (seen self.old).live }
        requires takes { IsTrue ((seen self.old).takes set kind) }
        ensures number { IfOk result (λ n. n ≡ length ((seen self.old).places set)) }
        ensures page { IfOk result (λ n. (seen self.new).pages set ≡ option_map (λ pages. pages ++ empty_page kind set n ∷ []) ((seen self.old).pages set)) }
        ensures leaves { MatchResult result (λ n. GrownBy 1 set (seen self.old) (seen self.new)) (λ fault. SameShelf (seen self.old) (seen self.new)) }
        ensures no_room { IsErrOf result PageFault.NoRoom ↔ ((seen self.old).free ≡ []) }
        ensures keeps { Keeps (steady self.old self.new) (IsErrOf result PageFault.Failed) (seen self.old) (seen self.new) }
        ensures fetches { (seen self.new).fetches ≡ (seen self.old).fetches };

    ghost alive: { (shelf : Self) → (seen shelf).live ≡ Self.live shelf };

    /// A page has 4,096 bytes, and there is one for each block that the data set has.
    ghost pages_are: { (shelf : Self) (set : SetId) → AreBlocks (length ((seen shelf).places set)) ((seen shelf).pages set) };

    /// The pages of all data sets are told, or those of none.
    ghost told_alike: { (shelf : Self) (set other : SetId) → (seen shelf).pages set ≡ None → (seen shelf).pages other ≡ None };

    ghost few: { (shelf : Self) (set : SetId) → length ((seen shelf).places set) + length (seen shelf).free ≤ 65536 };

    ghost free_rises: { (shelf : Self) → IsTrue (rises_from 0 (seen shelf).free) };

    ghost steady_none: { (shelf : Self) → steady shelf shelf };

    ghost steady_then: { (a b c : Self) → steady a b → steady b c → steady a c };
}
