ghost use Rattle.record_walk.specs.Spans.{CutsAreSpans, NewSegmentsAreListed, NewTwinsStandBehindSpans, ReplacedContentIsListed};

use hal_schema::schemas_are_kept;

/// On the list a new segment is one row more, and every other row keeps its place and its home.
pub fn new_segments_are_listed()
    ensures { NewSegmentsAreListed }
{
    schemas_are_kept();
}

/// A new segment behind a twin stands directly behind that twin's span, as a row of the same parent.
pub fn new_twins_stand_behind_spans()
    ensures { NewTwinsStandBehindSpans }
{
    schemas_are_kept();
}

/// What is cut out is the span of the segment to which the pointer led.
pub fn cuts_are_spans()
    ensures { CutsAreSpans }
{
    schemas_are_kept();
}

/// A replaced content is that of one row.
pub fn replaced_content_is_listed()
    ensures { ReplacedContentIsListed }
{
    schemas_are_kept();
}
