ghost use Rattle.record_walk.specs.SideChanges.{ChangedSides};

use hal_schema::schemas_are_kept;

/// A side in which a segment was inserted, cut or replaced is a side again.
pub fn changed_sides()
    ensures { ChangedSides }
{
    schemas_are_kept();
}
