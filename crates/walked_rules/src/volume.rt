ghost use Rattle.walked_rules.specs.Laws.{WalkedEntriesHang, WalkedTargetsHang, WalkedVolumesAreForests, WalksAreListed};

use crate::rows::{walked_rows_stand, walked_sides_are_kept};
use record_walk::entries_hang_in_records;
use volume_rules::sides_are_a_forest;

/// The list of walked partitions is that of their walks, one behind another.
pub fn walks_are_listed()
    ensures { WalksAreListed }
{}

/// An index entry's root key is that of the record in which the row of its target's name stands.
pub fn walked_entries_hang()
    ensures { WalkedEntriesHang }
{
    entries_hang_in_records();
}

/// Where an index entry's target stands, it stands in the record of the entry's root key.
pub fn walked_targets_hang()
    ensures { WalkedTargetsHang }
{
    walked_rows_stand();
    walked_entries_hang();
}

/// The sides of walked partitions stand in order, and their list is a forest where no index has a key twice.
pub fn walked_volumes_are_forests()
    ensures { WalkedVolumesAreForests }
{
    walked_sides_are_kept();
    sides_are_a_forest();
}
