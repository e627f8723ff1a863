ghost use Rattle.forest_laws.specs.Spans.{CutsAreSpans, CutsLeaveAnchors, SpansAreBelow};

/// In a forest a span is exactly the rows whose path has the row.
pub fn spans_are_below()
    ensures { SpansAreBelow }
{}

/// A span stands in one piece, and a cut takes that piece and no more.
pub fn cuts_are_spans()
    ensures { CutsAreSpans }
{}

/// After a cut an anchor in the cut part goes to the last row before that, and every other stays.
pub fn cuts_leave_anchors()
    ensures { CutsLeaveAnchors }
{}
