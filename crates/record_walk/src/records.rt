ghost use Rattle.record_walk.specs.Records.{CutsKeepRecords, NewSegmentsKeepRecords, ReplacedContentKeepsRecords};

use hal_schema::schemas_are_kept;

/// With a new segment of the type to which the pointer leads the trees are records again.
pub fn new_segments_keep_records()
    ensures { NewSegmentsKeepRecords }
{
    schemas_are_kept();
}

/// After a cut the trees are records again.
pub fn cuts_keep_records()
    ensures { CutsKeepRecords }
{
    schemas_are_kept();
}

/// With another content of a segment the trees are records again.
pub fn replaced_content_keeps_records()
    ensures { ReplacedContentKeepsRecords }
{}
