ghost use Rattle.forest_laws.specs.Examples.{EmptyIsForest, IsExample, MeetsLaws};

use crate::{
    cut_keeps, cuts_leave_anchors, insertion_keeps, insertions_are_by_rule, paths_are_by_parents,
    replacement_keeps,
};

/// The empty list is a forest of every schema.
pub fn empty_is_forest()
    ensures { EmptyIsForest }
{}

/// A forest of three levels with two indexes, made by insertions, each of which may be.
pub fn example_is_forest()
    ensures { IsExample }
{}

/// What the laws say of that forest, whose rows meet their conditions.
pub fn example_meets_the_laws()
    ensures { MeetsLaws }
{
    example_is_forest();
    insertion_keeps();
    cut_keeps();
    replacement_keeps();
    insertions_are_by_rule();
    cuts_leave_anchors();
    paths_are_by_parents();
}
