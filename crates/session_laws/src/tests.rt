use crate::*;

// The laws are no more than their contracts; this calls each of them once.
#[test]
fn the_laws_can_be_called(_rt: HostRuntime) {
    changes_keep_a_forest();
    kept_sessions_stand();
    new_rows_stand();
}
