ghost use Rattle.record_walk.specs.Roots.{HomesAreListed, RowsComeAndGo, SeenFollows};

/// What the walk sees follows what becomes of a cell, for both kinds of database.
pub fn seen_follows()
    ensures { SeenFollows }
{}

/// A row of the root set that leads nowhere may come and go: the first root of a record or of an anchor is put behind
/// such a row, and the last one's row goes.
pub fn rows_come_and_go()
    ensures { RowsComeAndGo }
{}

/// How often a home is met is how many rows of the list have it.
pub fn homes_are_listed()
    ensures { HomesAreListed }
{}
