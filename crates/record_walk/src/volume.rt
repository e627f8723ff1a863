ghost use Rattle.record_walk.specs.Volume.{SidesAreForests};

use hal_schema::schemas_are_kept;

/// The lists of the sides, partitions in order, are a well-formed forest.
pub fn sides_are_forests()
    ensures { SidesAreForests }
{
    schemas_are_kept();
}
