ghost use Rattle.record_walk.specs.Changes.{ChangesOutsideLeave, CutsHang, MetCellsStand, NewSegmentsHang, ReplacedContentHangs, Unique};

/// A pointer has one tree at most that hangs from it.
pub fn trees_are_unique()
    ensures { Unique }
{}

/// At each home that is met in trees stands a cell, and it isn't copied.
pub fn met_cells_stand()
    ensures { MetCellsStand }
{}

/// Changes of cells that aren't met in trees leave these.
pub fn changes_outside_leave()
    ensures { ChangesOutsideLeave }
{}

/// A new segment behind a twin, as first child, or at the head of a row of the root set.
pub fn new_segments_hang()
    ensures { NewSegmentsHang }
{}

/// A segment that is cut out, with its twins before and behind.
pub fn cuts_hang()
    ensures { CutsHang }
{}

/// A segment whose content is replaced.
pub fn replaced_content_hangs()
    ensures { ReplacedContentHangs }
{}
