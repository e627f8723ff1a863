ghost use Rattle.record_walk.specs.Firsts.{FirstChildrenAreInserted, FirstRootsAreInserted, LaterChildrenAreInserted, LaterRootsAreInserted};

use hal_schema::{root_order_is_total, schemas_are_kept};

/// A new segment that came as a first child was inserted at its place.
pub fn first_children_are_inserted()
    ensures { FirstChildrenAreInserted }
{
    schemas_are_kept();
    root_order_is_total();
}

/// A new segment that came behind a twin was inserted at its place.
pub fn later_children_are_inserted()
    ensures { LaterChildrenAreInserted }
{
    schemas_are_kept();
    root_order_is_total();
}

/// A new root that came at the head of a row of the root set was inserted at its place.
pub fn first_roots_are_inserted()
    ensures { FirstRootsAreInserted }
{
    schemas_are_kept();
    root_order_is_total();
}

/// A new root that came behind a root of its anchor was inserted at its place.
pub fn later_roots_are_inserted()
    ensures { LaterRootsAreInserted }
{
    schemas_are_kept();
    root_order_is_total();
}
