ghost use Rattle.session_laws.specs.Standing.{ChangesKeepAForest, KeptSessionsStand, NewRowsStand};

use forest_laws::{cut_keeps, insertion_keeps, replacement_keeps};
use position_state::{anchors_are_of_both, rows_are_places};

/// A change that calls make keeps a forest.
pub fn changes_keep_a_forest()
    ensures { ChangesKeepAForest }
{
    insertion_keeps();
    replacement_keeps();
    cut_keeps();
}

/// What a change leaves of a session that sees the database in hierarchic sequence stands in the changed list.
pub fn kept_sessions_stand()
    ensures { KeptSessionsStand }
{
    changes_keep_a_forest();
    rows_are_places();
    anchors_are_of_both();
}

/// A new row stands under the root that its insertion names, in the list that has it.
pub fn new_rows_stand()
    ensures { NewRowsStand }
{
    changes_keep_a_forest();
}
