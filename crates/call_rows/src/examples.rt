ghost use Rattle.call_rows.specs.Examples.{ChangesFollow, GetsFind, StatusesCome};

/// Each status of a call comes somewhere.
pub fn statuses_come()
    ensures { StatusesCome }
{}

/// What gets find, show and leave: AND before OR, command codes D and L, parentage, holds, and a view by an index.
pub fn gets_find()
    ensures { GetsFind }
{}

/// What ISRT, REPL and DLET change, and what they leave of their own session.
pub fn changes_follow()
    ensures { ChangesFollow }
{}
