ghost use Rattle.dli_calls.specs.Laws.{GetsLeaveTheList, RefusalsLeave};

/// A refused call changes nothing, and of its session the hold alone; after GB the position and parentage too.
pub fn refusals_leave()
    ensures { RefusalsLeave }
{}

/// A get leaves the list as it is.
pub fn gets_leave_the_list()
    ensures { GetsLeaveTheList }
{}
