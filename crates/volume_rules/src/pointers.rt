ghost use Rattle.volume_rules.specs.Hanging.{EntriesHang, GoneAreUnpointed, PointersHang};
ghost use Rattle.volume_rules.specs.Laws.{PointersLeadHome, RootsStand};

use forest_laws::entries_are_of_sources;
use hal_schema::schemas_are_kept;

/// Each root that isn't copied stands in the generation of its key.
pub fn roots_stand()
    ensures { RootsStand }
{}

/// What a pointer's number says of where it leads.
pub fn pointers_lead_home()
    ensures { PointersLeadHome }
{}

/// In a forest an entry's root is that of the record in which its target stands.
pub fn entries_hang()
    ensures { EntriesHang }
{
    schemas_are_kept();
    entries_are_of_sources();
}

/// A pointer's root is the key of the record that stands where its target does.
pub fn pointers_hang()
    ensures { PointersHang }
{
    schemas_are_kept();
    entries_are_of_sources();
}

/// A segment whose name no row has any more is the target of no pointer.
pub fn gone_are_unpointed()
    ensures { GoneAreUnpointed }
{
    schemas_are_kept();
    entries_are_of_sources();
}
