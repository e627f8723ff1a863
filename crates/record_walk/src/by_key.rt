ghost use Rattle.record_walk.specs.ByKey.{RootsGoByRows};

use hal_schema::schemas_are_kept;

/// In PHIDAM a root is found by its row of the root set.
pub fn roots_go_by_rows()
    ensures { RootsGoByRows }
{
    schemas_are_kept();
}
