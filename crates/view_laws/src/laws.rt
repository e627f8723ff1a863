// What the plain view of a forest keeps.
ghost use Rattle.view_laws.specs.Views.{LevelsAreOfTypes, PlacesAreNamed, PlacesDiffer, RecordsStandTogether, RootsAreKeyed, RootsRise, TypesGoDown};

use hal_schema::schemas_are_kept;

/// No two elements of a view have one place: before and behind the place of each stands what is before and behind it in
/// the view.
pub fn places_differ()
    ensures { PlacesDiffer }
{}

/// The element that is found at a place has that place.
pub fn places_are_named()
    ensures { PlacesAreNamed }
{}

/// The level of an element is that of its type.
pub fn levels_are_of_types()
    ensures { LevelsAreOfTypes }
{}

/// The elements of the first type are the roots: they are of level 1, and their keys are their own.
pub fn roots_are_keyed()
    ensures { RootsAreKeyed }
{}

/// The roots of a view rise in the root order, so that no two have one key.
pub fn roots_rise()
    ensures { RootsRise }
{
    schemas_are_kept();
}

/// A root and all that is below it stand in one piece.
pub fn records_stand_together()
    ensures { RecordsStandTogether }
{}

/// On a path each type is the parent of the next.
pub fn types_go_down()
    ensures { TypesGoDown }
{}
