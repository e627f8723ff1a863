ghost use Rattle.volume_rules.specs.SideEvents.{EventsKeepOrder, EventsMoveRows};
ghost use Rattle.volume_rules.specs.SideForest.{SidesActAlike, SidesAreAForest};
ghost use Rattle.volume_rules.specs.SideLaws.{DeltasKeepRule4, DeltasKeepRule5, DeltasKeepRule7};

use forest_laws::{
    changes_stay_within, forests_are_sequences, insertions_stay_within, orders_join, sequences_join,
};

/// A lawful delta keeps rule 4, where the root sets follow it: their rows lead to the roots.
pub fn deltas_keep_rule_4()
    ensures { DeltasKeepRule4 }
{}

/// A lawful delta keeps rule 5, where the rows follow it: they are the segments that stand.
pub fn deltas_keep_rule_5()
    ensures { DeltasKeepRule5 }
{}

/// A lawful delta keeps rule 7, where the order follows it: roots belong to the partition, and twins stand in order.
pub fn deltas_keep_rule_7()
    ensures { DeltasKeepRule7 }
{}

/// The sides of a volume, partitions in order and of each the output before the input, are a forest.
pub fn sides_are_a_forest()
    ensures { SidesAreAForest }
{
    orders_join();
    sequences_join();
    forests_are_sequences();
}

/// What is inserted into one side, cut out of it or replaced in it is so in the forest.
pub fn sides_act_alike()
    ensures { SidesActAlike }
{
    sides_are_a_forest();
    changes_stay_within();
    insertions_stay_within();
}

/// Insertion, replacement, deletion, START, PAUSE, RESUME, a heal, a unit and the switch move the rows so that rule 5 is
/// kept.
pub fn events_move_rows()
    ensures { EventsMoveRows }
{}

/// Deletion, START, PAUSE, RESUME, a heal and the switch leave the order of the rows, so that rule 7 is kept.
pub fn events_keep_order()
    ensures { EventsKeepOrder }
{}
