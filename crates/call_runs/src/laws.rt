// What lines leave alone.
ghost use Rattle.call_runs.specs.Laws.{EachLineIsAnswered, OtherLinesLeaveTheList};

/// A line that is no call leaves the list as it is.
pub fn other_lines_leave_the_list()
    ensures { OtherLinesLeaveTheList }
{}

/// Each line has a reply of one line, but for silent ones; REORG lines are beside.
pub fn each_line_is_answered()
    ensures { EachLineIsAnswered }
{}
