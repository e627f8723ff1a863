// The table of commands, and `define`.
use crate::{Outcome, SMOOTH, Trouble, ran};
use hal_base::Bytes;
use std::alloc::Global;
use std::test::Fail;

const TEXTS: [&str; 21] = [
    "DBD NAME=KDB,ACCESS=(PHIDAM)",
    "SEGM NAME=R,PARENT=0,BYTES=5,RULES=(,LAST),DSGROUP=A",
    "FIELD NAME=(K,SEQ,U),BYTES=3,START=1,TYPE=C",
    "FIELD NAME=V,BYTES=2,START=4,TYPE=C",
    "SEGM NAME=C,PARENT=R,BYTES=4,RULES=(,LAST),DSGROUP=A",
    "FIELD NAME=(CK,SEQ,M),BYTES=2,START=1,TYPE=C",
    "SEGM NAME=G,PARENT=C,BYTES=2,RULES=(,LAST),DSGROUP=A",
    "SEGM NAME=U,PARENT=R,BYTES=4,RULES=(,FIRST),DSGROUP=A",
    "FIELD NAME=(UK,SEQ,M),BYTES=2,START=1,TYPE=C",
    "DBDGEN",
    "FINISH",
    "END",
    "blocks = 40",
    "[[partition]]",
    "name = \"P1\"",
    "number = 1",
    "high = \"500\"",
    "[[partition]]",
    "name = \"P2\"",
    "number = 2",
    "high = \"999\"",
];

/// A line that is changed, by its number from 1; 0 is none.
type Change = (usize, &'static str);

const SAME: Change = (0, "");

/// The texts of KDB, with at most two lines changed.
fn kdb(alloc: Global, one: Change, two: Change) -> Result<Bytes, Fail> {
    let mut source = Bytes::new(alloc);
    for (place, line) in TEXTS.iter().enumerate() {
        let number = place.wrapping_add(1);
        let text = if number == one.0 {
            one.1
        } else if number == two.0 {
            two.1
        } else {
            *line
        };
        source.append(text.as_bytes())?;
        source.append(b"\n")?;
    }
    Ok(source)
}

/// Runs the command of some words that are parted by blanks; `_` stands for an empty word.
fn command(alloc: Global, line: &str, source: &[u8], trouble: Trouble) -> Result<Outcome, Fail> {
    let mut words = Vec::new(alloc);
    for word in line.split_whitespace() {
        let word = if word == "_" { "" } else { word };
        words.push(String::from_str(alloc, word)?)?;
    }
    let trouble = Trouble {
        piece: trouble.piece.max(1),
        ..trouble
    };
    Ok(ran(alloc, words.as_slice(), source, trouble)?)
}

#[test]
fn words_of_no_row_are_refused(rt: HostRuntime) -> Result<(), Fail> {
    let alloc = rt.alloc();
    for line in [
        "",
        "_",
        "help",
        "--help",
        "crew V",
        "frob V",
        "V call",
        "call",
        "call -V",
        "call +V",
        "call _",
        "call V 1",
        "define",
        "define V V",
        "reorg V",
        "reorg V P1 P2",
        "make V 5",
        "make V 0 1",
        "make V 10001 1",
        "make V 1 4294967296",
        "make V 5x 1",
        "make V _ 1",
        "exercise V 5 12345678901",
        "exercise V 5 00000000001",
        "make V 5 1 1",
    ] {
        let outcome = command(alloc, line, b"PCB S A\n", SMOOTH)?;
        assert_eq!(rt; outcome.status, 1, "{line}");
        assert_eq!(rt;
            outcome.said.as_slice(),
            b"refused usage\n".as_slice(),
            "{line}"
        );
    }
    Ok(())
}

#[test]
fn commands_to_come_are_refused(rt: HostRuntime) -> Result<(), Fail> {
    let alloc = rt.alloc();
    for line in [
        "load V",
        "unload V",
        "report V",
        "reorg V P1",
        "reorg V no-name",
        "make V 0005 07",
        "make V 10000 4294967295",
        "exercise V 1 0",
    ] {
        let outcome = command(alloc, line, b"PCB S A\n", SMOOTH)?;
        assert_eq!(rt; outcome.status, 11, "{line}");
        assert_eq!(rt;
            outcome.said.as_slice(),
            b"refused not built\n".as_slice(),
            "{line}"
        );
    }
    Ok(())
}

const LONG: Change = (2, "SEGM NAME=R,PARENT=0,BYTES=2001,RULES=(,LAST),DSGROUP=A");

const ORPHAN: Change = (5, "SEGM NAME=C,PARENT=Q,BYTES=4,RULES=(,LAST),DSGROUP=A");

const CHECKS: [(Change, Change, &str); 13] = [
    (SAME, SAME, "checked KDB partitions 2 blocks 40\n"),
    (LONG, SAME, "refused line 2 rule 5\n"),
    (ORPHAN, SAME, "refused line 5 rule 1\n"),
    (LONG, ORPHAN, "refused line 5 rule 1\n"),
    (
        (4, "FIELD BYTES=2,START=4"),
        SAME,
        "refused line 4 rule 16\n",
    ),
    (ORPHAN, (20, "number = 1"), "refused line 5 rule 1\n"),
    (ORPHAN, (20, "number = "), "refused partition 0 rule 21\n"),
    (SAME, (20, "number = 1"), "refused partition 2 rule 3\n"),
    (
        SAME,
        (21, "high = \"500\""),
        "refused partition 2 rule 10\n",
    ),
    (SAME, (17, ""), "refused partition 1 rule 22\n"),
    (SAME, (13, "blocks = 0"), "refused partition 0 rule 12\n"),
    (SAME, (13, "block = 40"), "refused partition 0 rule 22\n"),
    ((12, "* no end"), SAME, "refused line 13 rule 14\n"),
];

#[test]
fn define_checks_its_texts(rt: HostRuntime) -> Result<(), Fail> {
    let alloc = rt.alloc();
    for (one, two, said) in CHECKS {
        let source = kdb(alloc, one, two)?;
        let outcome = command(alloc, "define V", source.as_slice(), SMOOTH)?;
        let status = if said.starts_with("checked") { 0 } else { 7 };
        assert_eq!(rt; outcome.said.as_slice(), said.as_bytes(), "{said}");
        assert_eq!(rt; outcome.status, status, "{said}");
    }
    let outcome = command(alloc, "define V", b"", SMOOTH)?;
    assert_eq!(rt;
        outcome.said.as_slice(),
        b"refused line 1 rule 19\n".as_slice()
    );
    Ok(())
}

#[test]
fn define_takes_its_source_in_first(rt: HostRuntime) -> Result<(), Fail> {
    let alloc = rt.alloc();
    let source = kdb(alloc, LONG, SAME)?;
    for (failing_read, failing_say, status) in [(2u64, 0u64, 5), (0, 1, 6), (0, 0, 7)] {
        let trouble = Trouble {
            piece: 100,
            failing_read,
            failing_say,
        };
        let outcome = command(alloc, "define V", source.as_slice(), trouble)?;
        assert_eq!(rt; outcome.status, status);
        assert_eq!(rt; outcome.said.is_empty(), status == 5);
    }
    Ok(())
}

#[test]
fn a_source_past_the_limit_is_no_definition(rt: HostRuntime) -> Result<(), Fail> {
    let alloc = rt.alloc();
    let text = vec![in alloc; b'*'; 67_108_865]?;
    let outcome = command(alloc, "define V", &text, SMOOTH)?;
    assert_eq!(rt; outcome.status, 10);
    assert!(rt; outcome.said.is_empty());
    Ok(())
}
