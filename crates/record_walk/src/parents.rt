ghost use Rattle.record_walk.specs.Parents.{ParentsStandFirst};

use hal_schema::schemas_are_kept;

/// In the list of records each row stands behind its parent, with no row of the parent's level or higher between.
pub fn parents_stand_first()
    ensures { ParentsStandFirst }
{
    schemas_are_kept();
}
