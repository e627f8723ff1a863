// Laws of loads. They have no code.
ghost use Rattle.hal_loader.specs.Laws.{LoadingKeeps, TakingKeeps, UnloadedRowsAreSaid, UnloadedRowsComeBack, UnloadedRowsLoadAgain};

use forest_laws::{insertion_keeps, paths_are_ancestries};
use hal_schema::{root_order_is_total, schemas_are_kept};

/// Taking a row that a taker may be asked to take keeps a forest.
pub fn taking_keeps()
    ensures { TakingKeeps }
{
    schemas_are_kept();
    insertion_keeps();
    root_order_is_total();
}

/// What a load puts into an empty taker is a forest.
pub fn loading_keeps()
    ensures { LoadingKeeps }
{
    schemas_are_kept();
    taking_keeps();
}

/// The text of rows says them, a record a row.
pub fn unloaded_rows_are_said()
    ensures { UnloadedRowsAreSaid }
{}

/// The text of a forest's rows loads again to the same list.
pub fn unloaded_rows_load_again()
    ensures { UnloadedRowsLoadAgain }
{
    schemas_are_kept();
    root_order_is_total();
    paths_are_ancestries();
    unloaded_rows_are_said();
}

/// A load of the text of a forest's rows takes them all, under whatever names the taker gives, or lacks free blocks.
pub fn unloaded_rows_come_back()
    ensures { UnloadedRowsComeBack }
{
    schemas_are_kept();
    root_order_is_total();
    paths_are_ancestries();
    taking_keeps();
    unloaded_rows_are_said();
}
