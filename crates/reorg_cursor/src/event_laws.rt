// What REORG events keep.
ghost use Rattle.reorg_cursor.specs.EventLaws.{EventsChangeOne, EventsFit, LeavesRest, NeedsAreFree, UnrepliedFall};

use crate::{finish_ends, states_fit};

/// States that control rows may have are so after each event.
pub fn events_fit()
    ensures { EventsFit }
{
    states_fit();
}

/// An event changes the state of the partition that it names alone.
pub fn events_change_one()
    ensures { EventsChangeOne }
{}

/// What an event takes of free blocks is there.
pub fn needs_are_free()
    ensures { NeedsAreFree }
{}

/// An event without a reply leaves fewer groups, so a FINISH ends.
pub fn unreplied_events_fall()
    ensures { UnrepliedFall }
{
    finish_ends();
}

/// A REORG line leaves the list and the sessions of any state: whatever stays where the states of the partitions are set.
pub fn reorg_lines_leave_the_rest<S, X>()
    ensures { LeavesRest S X }
{}
