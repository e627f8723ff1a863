ghost use Rattle.walked_rules.specs.Laws.{WalkedNamesDiffer, WalkedPartsKeepRule4, WalkedPartsKeepRule7, WalkedRowsStand, WalkedSidesAreKept};

use hal_schema::{root_order_is_total, schemas_are_kept};
use record_walk::{parents_stand_first, siblings_rise, sides_list_their_cells};

/// The rows of a walked partition are exactly the segments that stand, each at its home.
pub fn walked_rows_stand()
    ensures { WalkedRowsStand }
{
    sides_list_their_cells();
}

/// The rows of the root sets lead to roots of their keys, and in PHIDAM each root has its row.
pub fn walked_parts_keep_rule_4()
    ensures { WalkedPartsKeepRule4 }
{
    schemas_are_kept();
    root_order_is_total();
    walked_rows_stand();
}

/// Where rule 6 is kept, the names of a side differ.
pub fn walked_names_differ()
    ensures { WalkedNamesDiffer }
{
    walked_rows_stand();
}

/// Roots belong to the partition, and twins stand in order, where those of each chain do.
pub fn walked_parts_keep_rule_7()
    ensures { WalkedPartsKeepRule7 }
{
    schemas_are_kept();
    walked_rows_stand();
    siblings_rise();
}

/// Each side of a walked partition is in hierarchic sequence, so that of such partitions the sides are a forest.
pub fn walked_sides_are_kept()
    ensures { WalkedSidesAreKept }
{
    schemas_are_kept();
    walked_rows_stand();
    walked_parts_keep_rule_7();
    walked_names_differ();
    siblings_rise();
    parents_stand_first();
}
