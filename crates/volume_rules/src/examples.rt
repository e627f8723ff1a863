ghost use Rattle.volume_rules.specs.Applied.{CanHappen};
ghost use Rattle.volume_rules.specs.Examples.{AreBroken, AreKept};
ghost use Rattle.volume_rules.specs.SideExamples.{SidesAreBroken, SidesAreKept};

use forest_laws::entries_are_of_sources;
use hal_schema::schemas_are_kept;

/// An idle volume of three levels, and one with a reorganization under way, keep all rules.
pub fn examples_are_kept()
    ensures { AreKept }
{}

/// Partitions that break one rule, a clause each, and no lower one.
pub fn examples_are_broken()
    ensures { AreBroken }
{}

/// A reorganization begins and copies a record, a get heals, and a segment comes, changes and goes: the conditions
/// of the laws are met.
pub fn events_can_happen()
    ensures { CanHappen }
{
    schemas_are_kept();
    entries_are_of_sources();
}

/// The sides of the two volumes keep the rules 4, 5 and 7.
pub fn example_sides_are_kept()
    ensures { SidesAreKept }
{}

/// Partitions that break one of the rules 4, 5 and 7, a clause each.
pub fn example_sides_are_broken()
    ensures { SidesAreBroken }
{}
