// What decisions keep.
ghost use Rattle.call_changes.specs.Answer.{AnswersKeepAForest, AnswersLead};
ghost use Rattle.call_changes.specs.Laws.{DecisionsAreLawful, DecisionsKeepAForest};

use position_state::rows_are_places;
use session_laws::{changes_keep_a_forest, kept_sessions_stand, new_rows_stand};
use view_laws::places_differ;

/// The change of every decision is one that calls may make.
pub fn decisions_are_lawful()
    ensures { DecisionsAreLawful }
{
    places_differ();
}

/// A forest that a decision changed is a forest, whatever new name a new row gets, and sessions stand in it: its own as the
/// decision leaves it, which after an ISRT is set on the new row, and each other as the change leaves it.
pub fn decisions_keep_a_forest()
    ensures { DecisionsKeepAForest }
{
    places_differ();
    rows_are_places();
    changes_keep_a_forest();
    kept_sessions_stand();
    new_rows_stand();
}

/// A list that an answer changed is a forest, in which all sessions stand that the answer leaves.
pub fn answers_keep_a_forest()
    ensures { AnswersKeepAForest }
{
    decisions_keep_a_forest();
}

/// An answer is what the language of calls says of the call, and leads where it says.
pub fn answers_lead()
    ensures { AnswersLead }
{}
