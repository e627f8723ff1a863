// One call on the records of either side of the first partition, which are opened for it.
ghost use Rattle.std.specs.Prelude.{◌≡◌, ◌<◌, ◌≤◌, false, length, IfOk};
ghost use Rattle.record_tree.specs.Standing.{StandsForRecords};

use crate::opened;
use hal_base::{PageFault, Shelf, StoreFault};
use hal_schema::Schema;
use memory_shelf::QuietShelf;
use record_tree::Records;
use segment_blocks::Cell;
use std::alloc::Global;

/// The side that is read, and the one to which a reorganization copies.
#[derive(Clone, Copy, Debug, PartialEq, Eq)]
pub enum Side {
    Input,
    Output,
}

/// The records of a side.
pub fn opened_at(
    alloc: Global,
    shelf: &mut QuietShelf,
    schema: &Schema,
    side: Side,
) -> Result<Records, StoreFault>
    requires some { 0 < length schema.now.parts }
    requires phidam { schema.now.phdam ≡ false }
    ensures schema { IfOk result (λ records. records.schema ≡ schema.now) }
    ensures place { IfOk result (λ records. records.place ≡ 0) }
    ensures stands { IfOk result (λ records. StandsForRecords records (⟦<QuietShelf as Shelf>⟧.seen shelf.new)) }
{
    match side {
        Side::Input => opened(alloc, shelf, schema),
        Side::Output => Records::open(alloc, shelf, schema, 0, 2, b'M'),
    }
}

/// The first child of a type.
pub fn child_at(
    alloc: Global,
    shelf: &mut QuietShelf,
    schema: &Schema,
    side: Side,
    at: u32,
    code: u8,
) -> Result<Option<u32>, PageFault>
    requires some { 0 < length schema.now.parts }
    requires phidam { schema.now.phdam ≡ false }
    requires coded { 0 < code }
    requires known { code ≤ length schema.now.types }
{
    let Ok(records) = opened_at(alloc, shelf, schema, side) else {
        return Err(PageFault::Memory);
    };
    records.child(shelf, at, code)
}

/// The cell of the row at a home. `Memory` where none stands there.
pub fn cell_at(
    alloc: Global,
    shelf: &mut QuietShelf,
    schema: &Schema,
    side: Side,
    at: u32,
) -> Result<Cell, PageFault>
    requires some { 0 < length schema.now.parts }
    requires phidam { schema.now.phdam ≡ false }
{
    let Ok(records) = opened_at(alloc, shelf, schema, side) else {
        return Err(PageFault::Memory);
    };
    records.cell(shelf, at)
}
