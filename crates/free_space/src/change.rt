// A change of one cell, whose length stays.
ghost use Rattle.std.specs.Prelude.{◌≡◌, ◌↔◌, ℕ, slice_set, IfOk, IsTrue};
ghost use Rattle.segment_blocks.specs.Tiling.{shape_of};
ghost use Rattle.free_space.specs.Changes.{changed};

use hal_base::{Bytes, Ilk, List, Memory};
use segment_blocks::Cell;
use std::alloc::Global;

#[derive(Debug, Drop)]
pub(crate) enum Change {
    Pointers { twin: u32, children: List<u32> },
    Twin(u32),
    Child { place: u8, to: u32 },
    Content(Bytes),
    Name(Ilk),
    Copied,
}

pub(crate) fn copy_cell(alloc: Global, cell: &Cell) -> Result<Cell, Memory>
    ensures { IfOk result (λ copy. copy ≡ cell.now) }
{
    Ok(Cell {
        copied: cell.copied,
        code: cell.code,
        name: cell.name,
        twin: cell.twin,
        children: List::from_slice(alloc, cell.children.as_slice())?,
        content: cell.content.copy()?,
    })
}

/// The first children with another one of the child type at a place, if there is such a type.
fn with_child(alloc: Global, children: &[u32], place: u8, to: u32) -> Result<List<u32>, Memory>
    ensures { IfOk result (λ list. list ≡ slice_set children.now place to) }
{
    let mut all = Vec::from_slice(alloc, children)?;
    if let Some(child) = all.get_mut(usize::from(place)) {
        *child = to;
    }
    List::from_slice(alloc, all.as_slice())
}

impl Change {
    /// The change leaves the cell its shape.
    pub fn suits(&self, cell: &Cell) -> bool
        ensures { IsTrue result ↔ (shape_of (changed self.now cell.now) ≡ shape_of cell.now) }
    {
        match self {
            Change::Pointers { children, .. } => children.len() == cell.children.len(),
            Change::Content(content) => content.len() == cell.content.len(),
            Change::Twin(_) | Change::Child { .. } | Change::Name(_) | Change::Copied => true,
        }
    }

    pub fn applied(self, alloc: Global, cell: &Cell) -> Result<Cell, Memory>
        ensures { IfOk result (λ new. new ≡ changed self cell.now) }
    {
        let mut new = copy_cell(alloc, cell)?;
        match self {
            Change::Pointers { twin, children } => {
                new.twin = twin;
                new.children = children;
            }
            Change::Twin(twin) => new.twin = twin,
            Change::Child { place, to } => {
                new.children = with_child(alloc, cell.children.as_slice(), place, to)?;
            }
            Change::Content(content) => new.content = content,
            Change::Name(name) => new.name = name,
            Change::Copied => new.copied = true,
        }
        Ok(new)
    }
}
