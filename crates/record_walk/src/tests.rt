ghost use Rattle.record_walk.specs.Examples.{cells_in, example_cells, two_rows};
ghost use Rattle.record_walk.specs.OneProof.{IsSide-prop};
ghost use Rattle.record_walk.specs.Side.{IsSide};

use crate::*;
use hal_schema::Schema;

// A type that keeps it that cells and rows are a side of its schema.
#[derive(Drop)]
struct OpenSide {
    schema: Schema,
    ghost side: { IsSide schema 0 (cells_in (example_cells 144)) two_rows } by { IsSide-prop schema 0 (cells_in (example_cells 144)) two_rows },
}

impl OpenSide {
    fn schema(&self) -> &Schema
        ensures { IsSide result.now 0 (cells_in (example_cells 144)) two_rows }
    {
        &self.schema
    }
}

// The laws are no more than their contracts; this calls each of them once.
#[test]
fn the_laws_can_be_called(_rt: HostRuntime) {
    example_sides();
    broken_sides();
    changes_make_sides();
    sides_make_forests();
    trees_are_unique();
    met_cells_stand();
    changes_outside_leave();
    new_segments_hang();
    cuts_hang();
    replaced_content_hangs();
    new_segments_are_listed();
    new_twins_stand_behind_spans();
    cuts_are_spans();
    replaced_content_is_listed();
    homes_are_names();
    new_twins_are_inserted();
    twins_are_next();
    seen_follows();
    rows_come_and_go();
    homes_are_listed();
    inserted_between();
    parents_stand_first();
    siblings_rise();
    entries_hang_in_records();
    sides_list_their_cells();
    changed_sides();
    first_children_are_inserted();
    first_roots_are_inserted();
    later_roots_are_inserted();
    changes_of_one_side();
    sides_have_one_proof();
    sides_are_forests();
    new_segments_keep_records();
    cuts_keep_records();
    replaced_content_keeps_records();
}
