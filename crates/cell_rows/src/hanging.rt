// What calls on a side say of its cells is what the walk asks for.
ghost use Rattle.cell_rows.specs.Hanging.{PlacedSegmentsHang};

use record_walk::{met_cells_stand, new_segments_hang};

/// A cell that was placed on a side, with the pointer's old value as its twin, then named by its home, and then led to by
/// the pointer, is a new segment in the trees that hang there: behind a twin, or as first child.
pub fn placed_segments_hang()
    ensures { PlacedSegmentsHang }
{
    met_cells_stand();
    new_segments_hang();
}
