// Scripts of REORG lines, and what their text has to do with their events.
ghost use Rattle.reorg_cursor.specs.LineLaws.{OtherLinesArePassed, SpelledLinesAreEvents, UnbuiltLinesAreRefused};
ghost use Rattle.reorg_cursor.specs.Scripts.{AreNeeds, AreScripts, AreUnbuilt};
ghost use Rattle.reorg_cursor.specs.Taking.{ScriptsAreRuns};

use call_text::lines_are_spelled;

/// A text that the grammar makes a REORG line is answered by the outcome of its command on its partition.
pub fn spelled_lines_are_events<S>()
    ensures { SpelledLinesAreEvents S }
{
    lines_are_spelled();
}

/// A text that is no REORG line is left to the other lines.
pub fn other_lines_are_passed<S>()
    ensures { OtherLinesArePassed S }
{
    lines_are_spelled();
}

/// Where REORG lines aren't built yet, each is refused and changes nothing.
pub fn unbuilt_lines_are_refused<S>()
    ensures { UnbuiltLinesAreRefused S }
{
    lines_are_spelled();
}

/// Lines that are taken one after another are a run of the language, with its replies.
pub fn scripts_are_runs<S>()
    ensures { ScriptsAreRuns S }
{}

/// Scripts of every command, and of each refusal.
pub fn scripts_are_examples()
    ensures { AreScripts }
{}

/// Units of segments that are targets of indexes, and in a partition that leaves blocks empty.
pub fn needs_are_examples()
    ensures { AreNeeds }
{}

/// A script where REORG lines aren't built yet.
pub fn unbuilt_is_an_example()
    ensures { AreUnbuilt }
{}
