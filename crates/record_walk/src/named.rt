ghost use Rattle.record_walk.specs.Named.{HomesAreNames, InsertedBetween, NewTwinsAreInserted};

/// Where names differ, a span, a list without it, and a replaced content are by the row's name what they are by its home.
pub fn homes_are_names()
    ensures { HomesAreNames }
{}

/// A new segment that came behind the last twin that must stand before it was inserted at its place.
pub fn new_twins_are_inserted()
    ensures { NewTwinsAreInserted }
{}

/// A row is inserted behind the last row that must stand before it and what is deeper behind that one, else at the front.
pub fn inserted_between()
    ensures { InsertedBetween }
{}
