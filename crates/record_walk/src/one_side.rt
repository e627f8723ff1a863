ghost use Rattle.record_walk.specs.OneSide.{ChangesOfOneSide};

use hal_schema::{root_order_is_total, schemas_are_kept};

/// Inserting, cutting and replacing in one side are the forest's operations.
pub fn changes_of_one_side()
    ensures { ChangesOfOneSide }
{
    schemas_are_kept();
    root_order_is_total();
}
