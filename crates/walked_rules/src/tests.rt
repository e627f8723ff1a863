use crate::*;

// The laws are no more than their contracts; this calls each of them once.
#[test]
fn the_laws_can_be_called(_rt: HostRuntime) {
    walked_rows_stand();
    walked_parts_keep_rule_4();
    walked_names_differ();
    walked_parts_keep_rule_7();
    walked_sides_are_kept();
    walks_are_listed();
    walked_entries_hang();
    walked_targets_hang();
    walked_volumes_are_forests();
    walked_examples();
}
