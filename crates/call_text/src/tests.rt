use crate::{Line, PartOut, Reply, SegOut, print_line, read_line, reply_line};
use hal_base::{Bytes, Cursor, Name8};
use std::test::Fail;

/// The printed form of a line that is read, or the digit of its cause.
fn form_of(rt: &HostRuntime, text: &[u8]) -> Result<Bytes, Fail> {
    let line = read_line(rt.alloc(), text)?;
    if let Line::Bad(cause) = line {
        return Ok(Bytes::from_slice(rt.alloc(), &[b'0' + cause % 10])?);
    }
    Ok(print_line(rt.alloc(), &line)?)
}

#[test]
fn lines_are_read_by_their_forms(rt: HostRuntime) -> Result<(), Fail> {
    for (text, form) in [
        ("  s gu r ( k eq '001' )", "S GU R(K='001')"),
        ("S GU R(K GT 'a')", "S GU R(K>'a')"),
        ("S GU R(K LT 'a')", "S GU R(K<'a')"),
        ("S GU R(K GE 'a')", "S GU R(K>='a')"),
        ("S GU R(K=>'a')", "S GU R(K>='a')"),
        ("S GU R(K>='a')", "S GU R(K>='a')"),
        ("S GU R(K le 'a')", "S GU R(K<='a')"),
        ("S GU R(K=<'a')", "S GU R(K<='a')"),
        ("S GU R(K<='a')", "S GU R(K<='a')"),
        ("S GU R(K ne 'a')", "S GU R(K NE 'a')"),
        ("S GU R(K!='a')", "S GU R(K!='a')"),
        ("S GU R(K almost 'a')", "S GU R(K ALMOST 'a')"),
        ("S GU R(K EQ 'a')", "S GU R(K='a')"),
        ("S GU R(K = 'a')", "S GU R(K='a')"),
        ("S GU R(K gt 'a')", "S GU R(K>'a')"),
        ("S GU R(K Lt 'a')", "S GU R(K<'a')"),
        ("S GU R(K gE 'a')", "S GU R(K>='a')"),
        ("S GU R(K LE 'a')", "S GU R(K<='a')"),
        ("S GU R(K NE 'a')", "S GU R(K NE 'a')"),
        ("S GU R(K <> 'a')", "S GU R(K<>'a')"),
        ("S GU R(K='it''s')", "S GU R(K='it''s')"),
        ("S GU R(K='')", "S GU R(K='')"),
        ("S GU R(K='''')", "S GU R(K='''')"),
        ("S GU R(K=x'00fF')", "S GU R(K=X'00FF')"),
        ("S GU R(K=X'30')", "S GU R(K='0')"),
        ("S GU R(K='~')", "S GU R(K='~')"),
        ("S GU R(K=X'7f')", "S GU R(K=X'7F')"),
        ("S GU R(A='1'*B='2'|C='3')", "S GU R(A='1'&B='2'|C='3')"),
        ("S GU R(A='1' & B='2' + C='3')", "S GU R(A='1'&B='2'|C='3')"),
        ("S GU R*d  (K='1') c*DL g", "S GU R*D(K='1') C*DL G"),
        (
            " S  GN  R  ( K  =  '1'  &  L  =  '2'  )  :  '~'  ",
            "S GN R(K='1'&L='2') : '~'",
        ),
        ("S REPL R(K='1'):'a'", "S REPL R(K='1') : 'a'"),
        ("S REPL R*D:'a'", "S REPL R*D : 'a'"),
        ("s isrt r:'001aa'", "S ISRT R : '001aa'"),
        ("S REPL : '002cc' ", "S REPL : '002cc'"),
        ("S REPL:X'00'", "S REPL : X'00'"),
        ("S GN", "S GN"),
        ("pcb s a", "PCB S A"),
        (" PCB X G VDB ", "PCB X G VDB"),
        ("PCB $1 9", "PCB $1 9"),
        ("PCB GU R", "PCB GU R"),
        ("PCB PCBS A", "PCB PCBS A"),
        (" reorg  step  p1  7  ", "REORG STEP P1 7"),
        ("reorg start p1", "REORG START P1"),
        ("REORG STEP P1 0001", "REORG STEP P1 1"),
        ("REORG STEP P1 1000 ", "REORG STEP P1 1000"),
        ("REORG PAUSE P1", "REORG PAUSE P1"),
        ("REORG RESUME P1", "REORG RESUME P1"),
        ("REORG FINISH P1", "REORG FINISH P1"),
        ("REORG QUERY P1", "REORG QUERY P1"),
        ("", ""),
        ("   ", ""),
        ("* note", ""),
        ("*\t", ""),
    ] {
        assert_eq!(rt;
            form_of(&rt, text.as_bytes())?.as_slice(),
            form.as_bytes(),
            "{text}"
        );
        assert_eq!(rt;
            form_of(&rt, form.as_bytes())?.as_slice(),
            form.as_bytes(),
            "{form}"
        );
    }
    Ok(())
}

#[test]
fn a_bad_line_has_the_cause_of_its_first_fault(rt: HostRuntime) -> Result<(), Fail> {
    for (text, cause) in [
        ("S\tGU", "2"),
        ("S GU\r", "2"),
        (" * note", "3"),
        ("S", "3"),
        ("S GU R(K='001'", "3"),
        ("S GU R(K='001')C", "3"),
        ("S GU R *D", "3"),
        ("S GU R* D", "3"),
        ("S GU R*", "3"),
        ("S GU R()", "3"),
        ("S GU R(K)", "3"),
        ("S GU R(K'1')", "3"),
        ("S GU R(K EQ'1')", "3"),
        ("S GU R(KEQ '1')", "3"),
        ("S GU R(K E1 '1')", "3"),
        ("S GU R(K=1)", "3"),
        ("S GU R(K=X '30')", "3"),
        ("S GU R(K='1'&)", "3"),
        ("S GU R(K='1') (K='2')", "3"),
        ("S GU R : ", "3"),
        ("S GU R : 'a' 'b'", "3"),
        ("S GN : 'a' R", "3"),
        ("S GU R (K='1')*D", "3"),
        ("S GU R(K='1'&&L='2')", "3"),
        ("S GU R(K=> ='a')", "3"),
        ("ABCDEFGHI GU", "3"),
        ("S GUGUGUGUG", "3"),
        ("S GU ABCDEFGHI", "3"),
        ("S GU R*ABCDEFGHI", "3"),
        ("S GU R(ABCDEFGHI='1')", "3"),
        ("PCB ABCDEFGHI A", "3"),
        ("PCB S A ABCDEFGHI", "3"),
        ("REORG START ABCDEFGHI", "3"),
        ("REORG GU R", "3"),
        ("S GU# R", "3"),
        ("1S GU", "3"),
        ("PCB PCB A", "3"),
        ("PCB REORG A", "3"),
        ("PCB S", "3"),
        ("PCB S A VDB X", "3"),
        ("REORG STOP P1", "3"),
        ("REORG START", "3"),
        ("REORG START P1 1", "3"),
        ("REORG STEP P1", "3"),
        ("REORG STEP P1 1x", "3"),
        ("REORG STEP P1 1 2", "3"),
        ("REORG STEP P1 1000x", "3"),
        ("S GU R(K='0", "4"),
        ("S GU R(K='a''", "4"),
        ("S GU R(K=X'0')", "4"),
        ("S GU R(K=X'')", "4"),
        ("S GU R(K=X'3G')", "4"),
        ("S GU R(K=X'30", "4"),
        ("S GU R(K=X'3 0')", "4"),
        ("S GU R(K='1'' : a", "4"),
        ("REORG STEP P1 0", "5"),
        ("REORG STEP P1 00001", "5"),
        ("REORG STEP P1 0000", "5"),
        ("REORG STEP P1 1001", "5"),
        ("REORG STEP P1 0 X", "5"),
    ] {
        assert_eq!(rt;
            form_of(&rt, text.as_bytes())?.as_slice(),
            cause.as_bytes(),
            "{text}"
        );
    }
    assert_eq!(rt; form_of(&rt, &[b'A'; 8193])?.as_slice(), b"1".as_slice());
    assert_eq!(rt; form_of(&rt, &[b'A'; 8192])?.as_slice(), b"3".as_slice());
    Ok(())
}

fn name(text: &str) -> Result<Name8, Fail> {
    Ok(Name8::read(text.as_bytes()).ok_or("a name")?)
}

#[test]
fn replies_are_told_word_by_word(rt: HostRuntime) -> Result<(), Fail> {
    let text = |bytes: &[u8]| Bytes::from_slice(rt.alloc(), bytes);
    let found = Reply {
        status: *b"  ",
        seg: Some(SegOut {
            seg: name("R")?,
            key: text(b"001")?,
            content: Some(text(b"it's")?),
        }),
        part: None,
        number: None,
    };
    let line = reply_line(rt.alloc(), None, 3, &found)?;
    assert_eq!(rt; line.as_slice(), b"3 -- R '001' 'it''s'\n".as_slice());
    let inserted = Reply {
        status: *b"GA",
        seg: Some(SegOut {
            seg: name("C")?,
            key: text(&[0, 255])?,
            content: None,
        }),
        part: None,
        number: None,
    };
    let line = reply_line(rt.alloc(), Some(12), 4_294_967_295, &inserted)?;
    assert_eq!(rt; line.as_slice(), b"12.4294967295 GA C X'00FF'\n".as_slice());
    let refused = Reply {
        status: *b"+B",
        seg: None,
        part: None,
        number: Some(3),
    };
    let line = reply_line(rt.alloc(), None, 8, &refused)?;
    assert_eq!(rt; line.as_slice(), b"8 +B 3\n".as_slice());
    Ok(())
}

#[test]
fn a_command_tells_the_partition(rt: HostRuntime) -> Result<(), Fail> {
    for (side, state, cursor, words) in [
        (b'M', b'I', Cursor::Front, "5 -- P1 2 M IDLE -\n"),
        (b'A', b'C', Cursor::Anchors(3), "5 -- P1 2 A ACTIVE 3\n"),
        (
            b'A',
            b'P',
            Cursor::At(Bytes::from_slice(rt.alloc(), b"200")?),
            "5 -- P1 2 A PAUSED '200'\n",
        ),
    ] {
        let reply = Reply {
            status: *b"  ",
            seg: None,
            part: Some(PartOut {
                part: name("P1")?,
                number: 2,
                side,
                state,
                cursor,
            }),
            number: None,
        };
        let line = reply_line(rt.alloc(), None, 5, &reply)?;
        assert_eq!(rt; line.as_slice(), words.as_bytes());
    }
    Ok(())
}
