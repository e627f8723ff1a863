ghost use Rattle.record_walk.specs.Leads.{ChildrenAreFirst, PointersLeadOn, TwinsAreNext};

use hal_schema::schemas_are_kept;

/// A pointer of a met cell leads nowhere, or to a cell of the wanted type: to a child of its row, or to a twin.
pub fn pointers_lead_on()
    ensures { PointersLeadOn }
{
    schemas_are_kept();
}

/// The first child of a type is the first row of that type in the span of its parent, and there is none where the span has no
/// such row.
pub fn children_are_first()
    ensures { ChildrenAreFirst }
{
    schemas_are_kept();
}

/// The next twin of a dependent is the row directly behind its span, and there is none where that is of another type.
pub fn twins_are_next()
    ensures { TwinsAreNext }
{
    schemas_are_kept();
}
