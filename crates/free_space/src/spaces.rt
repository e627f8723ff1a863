// The numbers of a store's pages, and a tree over them.
ghost use Rattle.std.specs.Prelude.{◌≡◌, ◌≢◌, ◌+◌, ◌<◌, ◌≤◌, ◌^◌, ◌∷◌, ◌++◌, [], ℕ, length, slice_get, slice_set, slice_index, Some, IfOk, OnOk, IfSome, IfNone, vec_len};
ghost use Rattle.std.specs.Vec.{vec_capacity};
ghost use Rattle.segment_blocks.specs.declared.space.Space.{Space as SpaceOf};
ghost use Rattle.free_space.specs.Maxima.{AreMaxima, leaf_at, IsTreeOf};
ghost use Rattle.free_space.specs.Placing.{IsFirstWith};

use hal_base::Memory;
use segment_blocks::Space;
use std::alloc::Global;

/// The numbers of each page, and a tree of the largest holes: 2 to the height leaves, of which page n has that of number n,
/// behind as many nodes. The root is the node at 1, below the node at i stand those at 2i and 2i + 1, and each has the
/// larger number of these two. So the first page with a hole that is large enough is found in so many steps as the tree
/// is high.
#[derive(Debug, Drop)]
pub(crate) struct Spaces {
    pub pages: Vec<Space>,
    pub height: usize,
    pub nodes: Vec<u16>,
    ghost tree: { IsTreeOf height nodes.items pages.items },
}

/// Puts a number into a leaf, and the maxima of the nodes above it.
fn put_leaf(nodes: &mut [u16], half: usize, n: usize, room: u16)
    requires long { length nodes.old ≡ half + half }
    requires leaf { n < half }
    requires maxima { AreMaxima half nodes.old }
    ensures maxima { AreMaxima half nodes.new }
    ensures here { leaf_at half nodes.new n ≡ room }
    ensures others { (k : ℕ) → k < half → k ≢ n → leaf_at half nodes.new k ≡ leaf_at half nodes.old k }
{
    let mut node = half + n;
    nodes[node] = room;
    while node > 1 {
        node /= 2;
        nodes[node] = nodes[2 * node].max(nodes[2 * node + 1]);
    }
}

/// A tree with twice as many leaves: those of this one, and zeros behind them.
fn doubled(alloc: Global, nodes: &[u16], half: usize) -> Result<Vec<u16>, Memory>
    requires long { length nodes.now ≡ half + half }
    requires few { half ≤ 65536 }
    ensures long { IfOk result (λ new. length new.items ≡ half + half + (half + half)) }
    ensures maxima { IfOk result (λ new. AreMaxima (half + half) new.items) }
    ensures same { IfOk result (λ new. (k : ℕ) → k < half → leaf_at (half + half) new.items k ≡ leaf_at half nodes.now k) }
    ensures empty { IfOk result (λ new. (k : ℕ) → half ≤ k → k < half + half → leaf_at (half + half) new.items k ≡ 0) }
{
    let mut new = Vec::from_elem(alloc, 0u16, 4 * half)?;
    for n in 0..half {
        put_leaf(&mut new, 2 * half, n, nodes[half + n]);
    }
    Ok(new)
}

impl Spaces {
    /// Those of no page.
    pub fn none(alloc: Global) -> Result<Spaces, Memory>
        ensures { IfOk result (λ spaces. spaces.pages.items ≡ []) }
    {
        Ok(Spaces {
            pages: Vec::new(alloc),
            height: 0,
            nodes: Vec::from_elem(alloc, 0u16, 2)?,
        })
    }

    /// Makes room for one page more.
    pub fn make_slot(&mut self) -> Result<(), Memory>
        requires { length self.old.pages.items ≤ 65536 }
        ensures same { self.new.pages.items ≡ self.old.pages.items }
        ensures room { OnOk result (vec_len self.new.pages < vec_capacity self.new.pages) }
        ensures leaf { OnOk result (length self.new.pages.items < 2 ^ self.new.height) }
    {
        self.pages.reserve(1)?;
        let half = self.nodes.len() / 2;
        if self.pages.len() >= half {
            let alloc = *self.nodes.allocator();
            self.nodes = doubled(alloc, &self.nodes, half)?;
            self.height += 1;
        }
        Ok(())
    }

    /// Takes the numbers of one page more, for which there is room.
    pub fn add(&mut self, space: Space)
        requires room { vec_len self.old.pages < vec_capacity self.old.pages }
        requires leaf { length self.old.pages.items < 2 ^ self.old.height }
        ensures { self.new.pages.items ≡ self.old.pages.items ++ space ∷ [] }
    {
        let half = self.nodes.len() / 2;
        put_leaf(&mut self.nodes, half, self.pages.len(), space.largest);
        let _ = self.pages.push(space);
    }

    /// Takes other numbers of a page.
    pub fn set(&mut self, page: usize, space: Space)
        requires { page < length self.old.pages.items }
        ensures { self.new.pages.items ≡ slice_set self.old.pages.items page space }
    {
        let half = self.nodes.len() / 2;
        put_leaf(&mut self.nodes, half, page, space.largest);
        self.pages[page] = space;
    }

    /// The first page whose largest hole has place for so many bytes.
    pub fn first_page(&self, len: u16) -> Option<usize>
        requires { 0 < len }
        ensures found { IfSome result (IsFirstWith self.now.pages.items len) }
        ensures none { IfNone result ((k : ℕ) (space : SpaceOf) → slice_get self.now.pages.items k ≡ Some space → space.largest < len) }
    {
        let half = self.nodes.len() / 2;
        if self.nodes[1] < len {
            return None;
        }
        let mut node = 1;
        while node < half {
            node *= 2;
            if self.nodes[node] < len {
                node += 1;
            }
        }
        Some(node - half)
    }
}
