// The first path: a script over one list.
use crate::{SMOOTH, Trouble, called};
use hal_base::{Bytes, List, Site, Source};
use hal_desk::run;
use hal_disk::{MemSite, SureSource};
use std::test::Fail;

const TWO_LINES: &[u8] = b"PCB S A\nS ISRT R : '001aa'\n";

#[test]
fn scripts_have_their_replies(rt: HostRuntime) -> Result<(), Fail> {
    let alloc = rt.alloc();
    for (script, said) in [
        (
            "PCB S A\nS ISRT R : '001aa'\nS GU R(K='001')\n",
            "1 --\n2 -- R '001'\n3 -- R '001' '001aa'\n",
        ),
        (
            "PCB S A\nS ISRT R : '001aa'\nS ISRT R : '001bb'\nS GU R(K='002')\nS GN\n",
            "1 --\n2 -- R '001'\n3 II\n4 GE\n5 GB\n",
        ),
        (
            "S GU R(K='001')\nPCB S A\nPCB S A",
            "1 +S 5\n2 --\n3 +S 2\n",
        ),
        ("", ""),
        ("\n \n* note\r\nPCB S A\r\nPCB S A\r", "4 --\n5 +B 2\n"),
        (
            "PCB S A\nS ISRT R : '002  '\nS ISRT R : '001~~'\nS GU R(K='002')",
            "1 --\n2 -- R '002'\n3 -- R '001'\n4 -- R '002' '002  '\n",
        ),
        (
            "PCB\tS A\nPCB S A\0\nS ISRT R : '1'\n",
            "1 +B 2\n2 +B 2\n3 +S 5\n",
        ),
    ] {
        let outcome = called(alloc, script.as_bytes(), SMOOTH)?;
        assert_eq!(rt; outcome.status, 0, "{script}");
        assert_eq!(rt; outcome.said.as_slice(), said.as_bytes(), "{script}");
    }
    Ok(())
}

#[test]
fn a_line_of_any_length_has_its_reply(rt: HostRuntime) -> Result<(), Fail> {
    let alloc = rt.alloc();
    let mut script = Bytes::new(alloc);
    for _ in 0..8193 {
        script.push(b'A')?;
    }
    script.append(b"\nPCB S A\n")?;
    let outcome = called(alloc, script.as_slice(), SMOOTH)?;
    assert_eq!(rt; outcome.status, 0);
    assert_eq!(rt; outcome.said.as_slice(), b"1 +B 1\n2 --\n".as_slice());
    Ok(())
}

#[test]
fn a_failed_read_leaves_the_lines_that_ended(rt: HostRuntime) -> Result<(), Fail> {
    let alloc = rt.alloc();
    let trouble = Trouble {
        failing_read: 2,
        ..SMOOTH
    };
    let outcome = called(alloc, TWO_LINES, trouble)?;
    assert_eq!(rt; outcome.status, 5);
    assert_eq!(rt; outcome.said.as_slice(), b"1 --\n2 -- R '001'\n".as_slice());
    Ok(())
}

#[test]
fn a_failed_say_leaves_a_front_of_its_line(rt: HostRuntime) -> Result<(), Fail> {
    let alloc = rt.alloc();
    let trouble = Trouble {
        failing_say: 2,
        ..SMOOTH
    };
    let outcome = called(alloc, TWO_LINES, trouble)?;
    assert_eq!(rt; outcome.status, 6);
    assert!(rt; b"1 --\n2 -- R '001'\n".starts_with(outcome.said.as_slice()));
    assert!(rt; outcome.said.as_slice().starts_with(b"1 --\n"));
    assert!(rt; outcome.said.len() < 17);
    Ok(())
}

#[test]
fn pieces_of_any_size_say_the_same(rt: HostRuntime) -> Result<(), Fail> {
    let alloc = rt.alloc();
    for piece in [1usize, 2, 3, 7, 4096] {
        let outcome = called(alloc, TWO_LINES, Trouble { piece, ..SMOOTH })?;
        assert_eq!(rt; outcome.status, 0);
        assert_eq!(rt;
            outcome.said.as_slice(),
            b"1 --\n2 -- R '001'\n".as_slice(),
            "{piece}"
        );
    }
    Ok(())
}

#[test]
fn each_call_may_fail(rt: HostRuntime) -> Result<(), Fail> {
    let alloc = rt.alloc();
    for call in 1u64..13 {
        for reads in [true, false] {
            let trouble = Trouble {
                piece: 3,
                failing_read: if reads { call } else { 0 },
                failing_say: if reads { 0 } else { call },
            };
            let outcome = called(alloc, TWO_LINES, trouble)?;
            let wanted = if reads {
                if call < 11 { 5 } else { 0 }
            } else if call < 3 {
                6
            } else {
                0
            };
            assert_eq!(rt; outcome.status, wanted, "{reads} {call}");
            assert!(rt; b"1 --\n2 -- R '001'\n".starts_with(outcome.said.as_slice()));
        }
    }
    Ok(())
}

#[test]
fn one_byte_past_the_limit_is_too_long(rt: HostRuntime) -> Result<(), Fail> {
    let alloc = rt.alloc();
    let mut source = SureSource::new(Bytes::from_vec(vec![in alloc; b'\n'; 67_108_865]?));
    let site = MemSite::new(alloc, Bytes::new(alloc), List::new(alloc));
    let mut words = Vec::new(alloc);
    words.push(String::from_str(alloc, "call")?)?;
    words.push(String::from_str(alloc, "V")?)?;
    let ended = run(alloc, words.as_slice(), &mut source, site);
    assert_eq!(rt; ended.status, 10);
    assert!(rt; ended.site.said().is_empty());
    Ok(())
}
