ghost use Rattle.volume_rules.specs.Laws.{DeltasKeepHomes, DeltasKeepRule10, DeltasKeepRule6, DeltasKeepRule8, DeltasKeepRule9, DeltasKeepRules};

/// A lawful delta keeps cells in live generations, and copied ones in the input of a moving partition.
pub fn deltas_keep_homes()
    ensures { DeltasKeepHomes }
{}

/// A lawful delta keeps rule 6: names are distinct, and the home of a live name is its own.
pub fn deltas_keep_rule_6()
    ensures { DeltasKeepRule6 }
{}

/// A lawful delta keeps rule 9: the indirect list has the moved targets of indexes, and no others.
pub fn deltas_keep_rule_9()
    ensures { DeltasKeepRule9 }
{}

/// A lawful delta keeps rule 10: roots stand on the side that the cursor says.
pub fn deltas_keep_rule_10()
    ensures { DeltasKeepRule10 }
{}

/// A lawful delta keeps rule 8, where its pointers are old ones that follow their targets, or were made direct.
pub fn deltas_keep_rule_8()
    ensures { DeltasKeepRule8 }
{}

/// A lawful delta keeps the rules, for a partition and the pointers that lead into it.
pub fn deltas_keep_rules()
    ensures { DeltasKeepRules }
{}
