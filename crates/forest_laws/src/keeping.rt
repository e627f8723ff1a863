ghost use Rattle.forest_laws.specs.Keeping.{CutKeeps, InsertionKeeps, ReplacementKeeps};

use hal_schema::{root_order_is_total, schemas_are_kept};

/// Inserting a row that may be inserted keeps a forest.
pub fn insertion_keeps()
    ensures { InsertionKeeps }
{
    schemas_are_kept();
    root_order_is_total();
}

/// Cutting a span out keeps a forest.
pub fn cut_keeps()
    ensures { CutKeeps }
{}

/// Replacing a row's content by one that may replace it keeps a forest.
pub fn replacement_keeps()
    ensures { ReplacementKeeps }
{}
