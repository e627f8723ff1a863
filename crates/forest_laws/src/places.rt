ghost use Rattle.forest_laws.specs.Places.{InsertionsAreByRule};

use hal_schema::{root_order_is_total, schemas_are_kept};

/// A row that may be inserted goes directly behind the span of the last twin that must stand before it; where
/// there is none, behind its parent and the spans of that parent's children of lower code, or to the front.
pub fn insertions_are_by_rule()
    ensures { InsertionsAreByRule }
{
    schemas_are_kept();
    root_order_is_total();
}
