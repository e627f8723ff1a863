// A set of rows by key, over any shelf.
ghost use Rattle.std.specs.Prelude.{◌≤◌, ◌<◌};
ghost use Rattle.keyed_sets.specs.Layout.{row_length};

use crate::RowShape;
use crate::index::Index;
use hal_base::SetId;

/// A set of rows by key in the pages of a data set. In memory it keeps the first key of each page that has rows, and
/// the numbers of the pages that have none. It is opened anew where the shelf went back to its last commit, and where
/// another object changed the pages.
#[derive(Debug, Drop)]
pub struct KeyedSet {
    pub(crate) set: SetId,
    pub(crate) shape: RowShape,
    pub(crate) index: Index,
    ghost some: { 0 < shape.key },
    ghost short: { row_length shape ≤ 2040 },
}
