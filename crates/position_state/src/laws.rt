// What the definitions of views and sessions keep.
ghost use Rattle.position_state.specs.KeepLaws.{AnchorsAreOfBoth, AnchorsStand, AnchorsStay, RowsArePlaces, SessionsStay};

/// A place that both views have stays where it is.
pub fn anchors_stay()
    ensures { AnchorsStay }
{}

/// What a change leaves of a place is the front or at an element of the new view.
pub fn anchors_stand()
    ensures { AnchorsStand }
{}

/// No change and the setting of a pointer leave the list, and every session that stands.
pub fn sessions_stay()
    ensures { SessionsStay }
{}

/// In a forest the places of the view in hierarchic sequence are those of the rows, each under its root.
pub fn rows_are_places()
    ensures { RowsArePlaces }
{}

/// What a change leaves of a place in hierarchic sequence is the front, or at a row that both lists have.
pub fn anchors_are_of_both()
    ensures { AnchorsAreOfBoth }
{}
