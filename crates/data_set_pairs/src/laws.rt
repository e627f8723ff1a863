// What a volume holds in memory, as facts of its blocks.
ghost use Rattle.std.specs.Prelude.{◌≡◌, ◌*◌, ◌<◌, ◌≤◌, ℕ, List, [], Some, length, drop, replicate, slice_get, slice_index_or, slice_set, All, false, IfSome, IsTrue};
ghost use Rattle.hal_base.specs.declared.pages.SetId.{SetId};
ghost use Rattle.hal_base.specs.declared.place.PartState.{PartState};
ghost use Rattle.volume_image.specs.Control.{control_row, row_in};
ghost use Rattle.volume_image.specs.Header.{is_free, kind_in, page_in, says_no_more, set_in};
ghost use Rattle.volume_image.specs.Pages.{set_blocks};
ghost use Rattle.data_set_pairs.specs.Shelf.{blocks_at, kind_fits, KindsFit};
ghost use Rattle.data_set_pairs.specs.Table.{places_of};
ghost use Rattle.data_set_pairs.specs.Image.{are_known, AreNumbered, DataKnown, DataNumbered, IsPage};
ghost use Rattle.data_set_pairs.specs.Row.{GoesOn, Switches};

use crate::Volume;
use hal_base::{Blocks, PartState};

impl<B: Blocks> Volume<B> {
    /// Where the blocks are told: the control rows are those of the states, with zeros behind them; the block of each page
    /// has the head of that page, and each block that isn't free is the page that its head names. While each page of each data
    /// set has the kind that fits it, each data block that isn't free does. While each page says no more than its head may,
    /// each data block is free or live; then the live blocks of each data set are numbered from 0 on, and the data set's pages
    /// are all of them.
    pub fn is_its_blocks(&self)
        ensures rows { IfSome (B.seen self.now.blocks).list (λ list. (place : ℕ) (s : PartState) → slice_get self.now.states.items place ≡ Some s
            → row_in list place ≡ control_row s) }
        ensures rest { IfSome (B.seen self.now.blocks).list (λ list. (place : ℕ) → length self.now.states.items ≤ place → place < 32 * self.now.control
            → row_in list place ≡ replicate 128 0) }
        ensures pages { IfSome (B.seen self.now.blocks).list
            (λ list. (set : SetId) (n block : ℕ) → slice_get (places_of set self.now.table.pages.items) n ≡ Some block
            → IsPage self.now.indexes self.now.states.items set n (slice_index_or list block [])) }
        ensures each { IfSome (B.seen self.now.blocks).list (λ list. (block : ℕ) → self.now.control ≤ block → block < length list
            → is_free self.now.states.items (slice_index_or list block []) ≡ false → slice_get (places_of (set_in (slice_index_or list block []))
            self.now.table.pages.items) (page_in (slice_index_or list block [])) ≡ Some block) }
        ensures kinds { IfSome (B.seen self.now.blocks).list
            (λ list. ((set : SetId) → All (λ page. IsTrue (kind_fits set (kind_in page))) (blocks_at (places_of set self.now.table.pages.items) list))
            → KindsFit self.now.states.items self.now.control list) }
        ensures known { IfSome (B.seen self.now.blocks).list
            (λ list. ((set : SetId) → All (λ page. IsTrue (says_no_more page)) (blocks_at (places_of set self.now.table.pages.items) list))
            → IsTrue (are_known self.now.indexes self.now.states.items (drop self.now.control list))) }
        ensures numbered { IfSome (B.seen self.now.blocks).list
            (λ list. IsTrue (are_known self.now.indexes self.now.states.items (drop self.now.control list))
            → AreNumbered self.now.indexes self.now.states.items (drop self.now.control list)) }
        ensures counted { IfSome (B.seen self.now.blocks).list
            (λ list. IsTrue (are_known self.now.indexes self.now.states.items (drop self.now.control list)) → (set : SetId)
            → length (set_blocks self.now.indexes self.now.states.items set (drop self.now.control list)) ≡ length (places_of set self.now.table.pages.items)) }
    {}

    /// Where a reorganization begins, goes on, pauses or is resumed, the condition of `set_state` holds of the new state if
    /// each data block is free or live now.
    pub fn may_go_on(&self, place: u16, state: &PartState)
        requires known { DataKnown self.now.indexes self.now.control self.now.states.items (B.seen self.now.blocks).list }
        requires goes_on { GoesOn self.now.states.items place state.now }
        ensures known { DataKnown self.now.indexes self.now.control (slice_set self.now.states.items place state.now) (B.seen self.now.blocks).list }
        ensures numbered { DataNumbered self.now.indexes self.now.control (slice_set self.now.states.items place state.now) (B.seen self.now.blocks).list }
    {}

    /// And so where a reorganization ends: what the old side holds is free, and the other side holds what it held.
    pub fn may_switch(&self, place: u16, state: &PartState)
        requires known { DataKnown self.now.indexes self.now.control self.now.states.items (B.seen self.now.blocks).list }
        requires switches { Switches self.now.states.items place state.now }
        ensures known { DataKnown self.now.indexes self.now.control (slice_set self.now.states.items place state.now) (B.seen self.now.blocks).list }
        ensures numbered { DataNumbered self.now.indexes self.now.control (slice_set self.now.states.items place state.now) (B.seen self.now.blocks).list }
    {}
}
