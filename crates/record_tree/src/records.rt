// The records of a side of a partition.
use free_space::SideCells;
use hal_base::SetId;
use hal_schema::Schema;
use keyed_sets::KeyedSet;
use std::alloc::Global;

/// The records of one side of a partition, by their homes: the addresses of their cells. The shelf is passed at each call.
/// It is opened anew where the shelf went back to its last commit, and where another object changed the side's pages.
///
/// A call answers `Failed` where the shelf failed, and `Memory` where no memory was to be had, or where something was
/// read otherwise than a side has it. After a fault of a call that changes something the shelf is to be forgotten.
#[derive(Debug, Drop)]
pub struct Records {
    pub(crate) alloc: Global,
    pub(crate) schema: Schema,
    pub(crate) place: u16,
    pub(crate) first: SetId,
    pub(crate) cells: SideCells,
    pub(crate) roots: KeyedSet,
}
