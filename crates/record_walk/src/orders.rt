ghost use Rattle.record_walk.specs.Orders.{ChildCodesRise, ChildPlaces, RootsGoByKey};

/// The child types of a segment stand by their codes.
pub fn child_codes_rise()
    ensures { ChildCodesRise }
{}

/// Where a type's code stands among those of its parent's child types.
pub fn child_places()
    ensures { ChildPlaces }
{}

/// The order of roots is that of their keys within a PHIDAM partition.
pub fn roots_go_by_key()
    ensures { RootsGoByKey }
{}
