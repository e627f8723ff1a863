ghost use Rattle.walked_rules.specs.Examples.{WalkedExamples};

use crate::rows::{walked_parts_keep_rule_4, walked_parts_keep_rule_7, walked_rows_stand};
use crate::volume::walked_volumes_are_forests;
use record_walk::{example_sides, sides_make_forests};

/// Walked partitions in PHIDAM and in PHDAM, idle and of two generations, that keep the rules 4, 5 and 7.
pub fn walked_examples()
    ensures { WalkedExamples }
{
    walked_parts_keep_rule_4();
    walked_rows_stand();
    walked_parts_keep_rule_7();
    walked_volumes_are_forests();
    example_sides();
    sides_make_forests();
}
