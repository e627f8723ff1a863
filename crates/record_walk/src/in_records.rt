ghost use Rattle.record_walk.specs.InRecords.{EntriesHangInRecords, SidesListTheirCells};

use hal_schema::schemas_are_kept;

/// An index entry's root key is that of the record in which its target hangs.
pub fn entries_hang_in_records()
    ensures { EntriesHangInRecords }
{
    schemas_are_kept();
}

/// The list of a side has a row for each cell that isn't copied, at the cell's home, and no other.
pub fn sides_list_their_cells()
    ensures { SidesListTheirCells }
{}
