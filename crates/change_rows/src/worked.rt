// Scripts over one database, each over what the one before left.
use crate::Case;
use crate::tests::{KDB, KXDB, empty, wrong_of};
use std::test::Fail;

const A_ROOT: [Case; 3] = [
    ("PCB S A", "1 --\n"),
    ("S ISRT R : '001aa'", "2 -- R '001'\n"),
    ("S GU R(K='001')", "3 -- R '001' '001aa'\n"),
];

const NOTHING: [Case; 4] = [
    ("PCB S G", "1 --\n"),
    ("S GN", "2 GB\n"),
    ("S GN", "3 GB\n"),
    ("S GU", "4 GE\n"),
];

const TWO_PARTITIONS: [Case; 6] = [
    ("PCB S A", "1 --\n"),
    ("S ISRT R : '500bb'", "2 -- R '500'\n"),
    ("S ISRT R : '99:zz'", "3 FM\n"),
    ("S GU R(K='99:')", "4 FM\n"),
    ("S GU R(K>'99:')", "5 GE\n"),
    ("S ISRT R : '500cc'", "6 II\n"),
];

const FIRST_AND_LAST: [Case; 11] = [
    ("PCB S A", "1 --\n"),
    ("S ISRT R : '001aa'", "2 -- R '001'\n"),
    ("S ISRT R(K='001') C : '01xx'", "3 -- C '00101'\n"),
    ("S ISRT R(K='001') C : '01yy'", "4 -- C '00101'\n"),
    ("S ISRT R(K='001') U : '01pp'", "5 -- U '00101'\n"),
    ("S ISRT R(K='001') U : '01qq'", "6 -- U '00101'\n"),
    ("S GU R(K='001')", "7 -- R '001' '001aa'\n"),
    ("S GN C", "8 -- C '00101' '01xx'\n"),
    ("S GN C", "9 -- C '00101' '01yy'\n"),
    ("S GN U", "10 -- U '00101' '01qq'\n"),
    ("S GN U", "11 -- U '00101' '01pp'\n"),
];

const IN_SEQUENCE: [Case; 12] = [
    ("PCB S A", "1 --\n"),
    ("S ISRT R(K='001') C(CK='01') G : 'g1'", "2 -- G '00101'\n"),
    ("S ISRT R : '002bb'", "3 -- R '002'\n"),
    ("S GU", "4 -- R '001' '001aa'\n"),
    ("S GN", "5 -- C '00101' '01xx'\n"),
    ("S GN", "6 -- G '00101' 'g1'\n"),
    ("S GN", "7 GA C '00101' '01yy'\n"),
    ("S GN", "8 GK U '00101' '01qq'\n"),
    ("S GN", "9 -- U '00101' '01pp'\n"),
    ("S GN", "10 GA R '002' '002bb'\n"),
    ("S GN", "11 GB\n"),
    ("S GN", "12 -- R '001' '001aa'\n"),
];

const WITHIN_PARENT: [Case; 5] = [
    ("PCB S G", "1 --\n"),
    ("S GNP", "2 GP\n"),
    ("S GU R(K='001') C(CK='01')", "3 -- C '00101' '01xx'\n"),
    ("S GNP", "4 -- G '00101' 'g1'\n"),
    ("S GNP", "5 GE\n"),
];

const HOLDS: [Case; 9] = [
    ("PCB S A", "1 --\n"),
    ("PCB T A", "2 --\n"),
    ("S GHU R(K='002')", "3 -- R '002' '002bb'\n"),
    ("S REPL : '003bb'", "4 DA\n"),
    ("S REPL : '002cc'", "5 DJ\n"),
    ("S GHU R(K='002')", "6 -- R '002' '002bb'\n"),
    ("T GHU R(K='002')", "7 -- R '002' '002bb'\n"),
    ("T REPL : '002dd'", "8 --\n"),
    ("S REPL : '002ee'", "9 DJ\n"),
];

const A_PART_CUT: [Case; 7] = [
    ("PCB S A", "1 --\n"),
    ("PCB T G", "2 --\n"),
    ("T GU R(K='001') C(CK='01') G", "3 -- G '00101' 'g1'\n"),
    ("S GHU R(K='001') C(CK='01')", "4 -- C '00101' '01xx'\n"),
    ("S DLET", "5 --\n"),
    ("T GNP", "6 GP\n"),
    ("T GN", "7 -- C '00101' '01yy'\n"),
];

const A_TAKEN_ENTRY: [Case; 5] = [
    ("PCB S A", "1 --\n"),
    ("S ISRT R : '001aa'", "2 -- R '001'\n"),
    ("S ISRT R : '002aa'", "3 NI\n"),
    ("S GU R(K='002')", "4 GE\n"),
    ("PCB X G VDB", "5 --\n"),
];

const LONE_SSAS: [Case; 8] = [
    ("PCB S A", "1 --\n"),
    ("S ISRT R : '100aa'", "2 -- R '100'\n"),
    ("S ISRT C : '01xx'", "3 -- C '10001'\n"),
    ("S ISRT G : 'g1'", "4 -- G '10001'\n"),
    ("S ISRT G : 'g2'", "5 -- G '10001'\n"),
    ("S GU R C G", "6 -- G '10001' 'g1'\n"),
    ("S GN", "7 -- G '10001' 'g2'\n"),
    ("S GN", "8 GB\n"),
];

const LINES: [Case; 13] = [
    ("PCB S G", "1 --\n"),
    ("PCB S G", "2 +S 2\n"),
    ("S ISRT R : '001aa'", "3 AM\n"),
    ("S FOO", "4 AD\n"),
    ("S GU R(K='0011')", "5 AJ\n"),
    ("S GU R(Z='1')", "6 AK\n"),
    ("S GU C R", "7 AC\n"),
    ("S GU R(K='001'", "8 +B 3\n"),
    ("T GU", "9 +S 5\n"),
    ("S GU R : 'x'", "10 +L\n"),
    ("PCB T Q", "11 +S 1\n"),
    ("PCB T G NOX", "12 +S 4\n"),
    ("S GU R(K=X'30')", "13 AJ\n"),
];

const BAD_LINES: [Case; 6] = [
    ("S GU R(K='0", "1 +B 4\n"),
    ("REORG STEP P1 0", "2 +B 5\n"),
    ("S\tGN", "3 +B 2\n"),
    ("* note", ""),
    ("REORG QUERY P1", "5 +B 9\n"),
    ("PCB S G", "6 --\n"),
];

const IN_OTHER_WORDS: [Case; 3] = [
    ("  pcb s a", "1 --\n"),
    ("s isrt r:'001aa'", "2 -- R '001'\n"),
    ("  s gu r ( k eq '001' )", "3 -- R '001' '001aa'\n"),
];

#[test]
fn a_root_is_inserted_and_found(rt: HostRuntime) -> Result<(), Fail> {
    assert_eq!(rt; wrong_of(rt.alloc(), KDB, 40, &[A_ROOT.as_slice()])?, None);
    Ok(())
}

#[test]
fn an_empty_database_has_nothing(rt: HostRuntime) -> Result<(), Fail> {
    assert_eq!(rt; wrong_of(rt.alloc(), KDB, 40, &[NOTHING.as_slice()])?, None);
    Ok(())
}

#[test]
fn a_root_key_above_all_and_one_twice(rt: HostRuntime) -> Result<(), Fail> {
    assert_eq!(rt;
        wrong_of(rt.alloc(), KDB, 40, &[TWO_PARTITIONS.as_slice()])?,
        None
    );
    Ok(())
}

#[test]
fn runs_go_on_with_what_others_left(rt: HostRuntime) -> Result<(), Fail> {
    let scripts = [
        FIRST_AND_LAST.as_slice(),
        IN_SEQUENCE.as_slice(),
        WITHIN_PARENT.as_slice(),
        HOLDS.as_slice(),
        A_PART_CUT.as_slice(),
    ];
    assert_eq!(rt; wrong_of(rt.alloc(), KDB, 40, &scripts)?, None);
    Ok(())
}

#[test]
fn an_entry_key_comes_once(rt: HostRuntime) -> Result<(), Fail> {
    assert_eq!(rt;
        wrong_of(rt.alloc(), KXDB, 40, &[A_TAKEN_ENTRY.as_slice()])?,
        None
    );
    Ok(())
}

#[test]
fn a_lone_ssa_goes_by_the_position(rt: HostRuntime) -> Result<(), Fail> {
    assert_eq!(rt;
        wrong_of(rt.alloc(), KDB, 40, &[LONE_SSAS.as_slice()])?,
        None
    );
    Ok(())
}

#[test]
fn lines_that_are_refused(rt: HostRuntime) -> Result<(), Fail> {
    assert_eq!(rt; wrong_of(rt.alloc(), KDB, 40, &[LINES.as_slice()])?, None);
    Ok(())
}

#[test]
fn lines_that_are_not_read(rt: HostRuntime) -> Result<(), Fail> {
    let scripts = [BAD_LINES.as_slice(), IN_OTHER_WORDS.as_slice()];
    assert_eq!(rt; wrong_of(rt.alloc(), KDB, 40, &scripts)?, None);
    Ok(())
}

#[test]
fn a_line_is_too_long(rt: HostRuntime) -> Result<(), Fail> {
    let Some(mut desk) = empty(rt.alloc(), KDB, 40) else {
        return Ok(());
    };
    let text = desk.answer(1, [b'A'; 8_193].as_slice())?;
    assert_eq!(rt; text.as_slice(), b"1 +B 1\n".as_slice());
    Ok(())
}
