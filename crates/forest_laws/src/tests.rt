use crate::*;

// The laws are no more than their contracts; this calls each of them once.
#[test]
fn the_laws_can_be_called(_rt: HostRuntime) {
    empty_is_forest();
    example_is_forest();
    example_meets_the_laws();
    forests_are_sequences();
    joining_is_an_example();
    orders_join();
    sequences_join();
    changes_stay_within();
    insertions_stay_within();
    insertion_keeps();
    cut_keeps();
    replacement_keeps();
    insertions_are_by_rule();
    paths_append::<u8>();
    paths_begin_anew::<u8>();
    paths_go_on::<u8>();
    paths_are_by_parents();
    paths_are_ancestries();
    keys_are_long();
    spans_are_below();
    cuts_are_spans();
    cuts_leave_anchors();
    entries_are_of_sources();
    entries_are_in_key_order();
}
