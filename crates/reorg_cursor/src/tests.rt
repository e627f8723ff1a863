use crate::{
    Refusal, end, groups_asked, is_done, move_cursor, other_lines_are_passed, pause,
    reorg_lines_leave_the_rest, resume, scripts_are_runs, spelled_lines_are_events, start,
    unbuilt_lines_are_refused,
};
use call_text::Command;
use hal_base::{Cursor, Key, PartState};
use hal_schema::first_schema;
use std::test::Fail;

fn state(number: u16, side: u8, state: u8) -> PartState {
    PartState {
        part: 1,
        number,
        side,
        state,
        cursor: Cursor::Front,
    }
}

#[test]
fn a_reorganization_is_begun_paused_resumed_and_ended(rt: HostRuntime) {
    let mut of = state(1, b'A', b'I');
    assert_eq!(rt; start(&mut of), Ok(()));
    assert_eq!(rt; start(&mut of), Err(Refusal::Begun));
    assert_eq!(rt; resume(&mut of), Err(Refusal::Begun));
    assert_eq!(rt; pause(&mut of), Ok(()));
    assert_eq!(rt; pause(&mut of), Err(Refusal::Paused));
    assert_eq!(rt; end(&mut of), Err(Refusal::Paused));
    assert_eq!(rt; resume(&mut of), Ok(()));
    assert_eq!(rt; (of.number, of.side, of.state), (1, b'A', b'C'));
    assert_eq!(rt; end(&mut of), Ok(()));
    assert_eq!(rt; (of.number, of.side, of.state), (2, b'M', b'I'));
    assert_eq!(rt; end(&mut of), Err(Refusal::NotBegun));
    assert_eq!(rt; pause(&mut of), Err(Refusal::NotBegun));
    assert_eq!(rt; resume(&mut of), Err(Refusal::NotBegun));
}

#[test]
fn the_last_number_begins_none(rt: HostRuntime) {
    let mut last = state(65535, b'A', b'I');
    assert_eq!(rt; start(&mut last).map_err(|refusal| refusal.code()), Err(5));
    let mut before = state(65534, b'M', b'I');
    assert_eq!(rt; start(&mut before), Ok(()));
    assert_eq!(rt; end(&mut before), Ok(()));
    assert_eq!(rt; (before.number, before.side), (65535, b'A'));
}

#[test]
fn a_refusal_says_why(rt: HostRuntime) -> Result<(), Fail> {
    let text = Refusal::LastNumber.to_string(rt.alloc())?;
    assert_eq!(rt;
        text.as_str(),
        "the partition has the last reorganization number"
    );
    assert_eq!(rt; Refusal::Begun.code(), 2);
    assert_eq!(rt; Refusal::NotBegun.code(), 3);
    assert_eq!(rt; Refusal::Paused.code(), 4);
    Ok(())
}

#[test]
fn a_unit_moves_the_cursor_behind_its_last_record(rt: HostRuntime) -> Result<(), Fail> {
    let schema = first_schema(rt.alloc())?;
    let mut of = state(1, b'A', b'C');
    move_cursor(&mut of, &schema, None);
    assert!(rt; matches!(&of.cursor, Cursor::Front));
    assert!(rt; !is_done(&schema, &of.cursor, b"100"));
    let last = Key::from_slice(rt.alloc(), b"200")?;
    move_cursor(&mut of, &schema, Some(last));
    for (key, done) in [("100", true), ("200", true), ("201", false)] {
        assert_eq!(rt; is_done(&schema, &of.cursor, key.as_bytes()), done, "{key}");
    }
    assert!(rt; is_done(&schema, &Cursor::Anchors(1), b"201"));
    assert_eq!(rt; groups_asked(Command::Finish), 16);
    assert_eq!(rt; groups_asked(Command::Step(1000)), 1000);
    reorg_lines_leave_the_rest::<u8, u8>();
    spelled_lines_are_events::<u8>();
    other_lines_are_passed::<u8>();
    unbuilt_lines_are_refused::<u8>();
    scripts_are_runs::<u8>();
    Ok(())
}
