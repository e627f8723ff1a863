ghost use Rattle.record_walk.specs.ChangeExamples.{ChangesMakeSides, SidesMakeForests};
ghost use Rattle.record_walk.specs.Examples.{AreSides, BreakAPart};

use crate::firsts::{
    first_children_are_inserted, first_roots_are_inserted, later_roots_are_inserted,
};
use crate::in_records::entries_hang_in_records;
use crate::one_side::changes_of_one_side;
use crate::side_changes::changed_sides;
use crate::volume::sides_are_forests;

/// Sides of three levels, in PHIDAM and in PHDAM, that walk to one list.
pub fn example_sides()
    ensures { AreSides }
{}

/// For each part of what a side is cells and rows of a root set that break it.
pub fn broken_sides()
    ensures { BreakAPart }
{}

/// Each kind of insertion, of a cut and of a replacement in these sides makes a side again.
pub fn changes_make_sides()
    ensures { ChangesMakeSides }
{
    changed_sides();
}

/// What the sides and their changes are in the forest; and sides and twins that don't stand in order.
pub fn sides_make_forests()
    ensures { SidesMakeForests }
{
    changed_sides();
    changes_of_one_side();
    first_children_are_inserted();
    first_roots_are_inserted();
    later_roots_are_inserted();
    entries_hang_in_records();
    sides_are_forests();
}
