ghost use Rattle.forest_laws.specs.Paths.{KeysAreLong, PathsAppend, PathsAreAncestries, PathsAreByParents, PathsBeginAnew, PathsGoOn};

use hal_schema::schemas_are_kept;

/// In a forest the path by levels is the path by parents' names.
pub fn paths_are_by_parents()
    ensures { PathsAreByParents }
{
    schemas_are_kept();
}

/// In a forest the codes of a path are its row's type and those above it, from the root type down.
pub fn paths_are_ancestries()
    ensures { PathsAreAncestries }
{
    schemas_are_kept();
}

/// In a forest a concatenated key has the length that the schema says.
pub fn keys_are_long()
    ensures { KeysAreLong }
{
    schemas_are_kept();
}

/// What is deeper than all of a path goes on with it, so a scan that fails at a row may pass over all below it.
pub fn paths_go_on<X>()
    ensures { PathsGoOn X }
{}

/// An item that nothing is above begins anew, so the paths of a record are within that record.
pub fn paths_begin_anew<X>()
    ensures { PathsBeginAnew X }
{}

/// The paths along two lists, one behind the other.
pub fn paths_append<X>()
    ensures { PathsAppend X }
{}
