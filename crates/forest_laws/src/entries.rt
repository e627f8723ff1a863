ghost use Rattle.forest_laws.specs.Entries.{EntriesAreInKeyOrder, EntriesAreOfSources};

use hal_schema::schemas_are_kept;

/// In a forest each row of an index's source type has one entry, and there are no others.
pub fn entries_are_of_sources()
    ensures { EntriesAreOfSources }
{
    schemas_are_kept();
}

/// The entries of an index are those of its sources, each as often, in the order of their keys.
pub fn entries_are_in_key_order()
    ensures { EntriesAreInKeyOrder }
{}
