ghost use Rattle.volume_rules.specs.Laws.{RulesPassTests, TestsTell};
ghost use Rattle.volume_rules.specs.Volume.{AlikeHoldTheSame, HoldsOne};

/// The tests over the homes of a partition and the rows of its list tell that its rules are kept.
pub fn tests_tell()
    ensures { TestsTell }
{}

/// A partition whose rules are kept passes the tests, over whatever homes and names they go.
pub fn rules_pass_tests()
    ensures { RulesPassTests }
{}

/// A volume holds one list and one list of states at the most.
pub fn holds_one()
    ensures { HoldsOne }
{}

/// Volumes whose live sides have the same rows, and whose partitions stand the same, hold the same.
pub fn alike_hold_the_same()
    ensures { AlikeHoldTheSame }
{}
