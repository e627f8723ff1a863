ghost use Rattle.record_walk.specs.Siblings.{SiblingsRise};

use hal_schema::schemas_are_kept;

/// In the list of records the children of a parent stand by their types, and twins in the order of their keys where those
/// of each chain do.
pub fn siblings_rise()
    ensures { SiblingsRise }
{
    schemas_are_kept();
}
