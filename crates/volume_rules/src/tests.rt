use crate::*;

// The laws are no more than their contracts; this calls each of them once.
#[test]
fn the_laws_can_be_called(_rt: HostRuntime) {
    deltas_keep_homes();
    deltas_keep_rule_6();
    deltas_keep_rule_8();
    deltas_keep_rule_9();
    deltas_keep_rule_10();
    deltas_keep_rules();
    deltas_keep_rule_4();
    deltas_keep_rule_5();
    deltas_keep_rule_7();
    sides_are_a_forest();
    sides_act_alike();
    events_move_rows();
    events_keep_order();
    examples_are_kept();
    examples_are_broken();
    example_sides_are_kept();
    example_sides_are_broken();
    pointers_lead_home();
    roots_stand();
    tests_tell();
    rules_pass_tests();
    holds_one();
    alike_hold_the_same();
    rising_goes_on();
    entries_hang();
    pointers_hang();
    gone_are_unpointed();
    events_can_happen();
    insertions_are_lawful();
    replacements_are_lawful();
    deletions_are_lawful();
    turns_are_lawful();
    reorganizations_turn();
    units_are_lawful();
    switches_are_lawful();
}
