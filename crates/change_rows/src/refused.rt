// Each refusal of a change, and those that fit together.
use crate::tests::{KDB, KXDB, TWINS, empty, wrong_of};
use crate::{Case, first_wrong};
use position_state::WalkFault;
use std::alloc::Global;
use std::test::Fail;

const FILLED: [Case; 5] = [
    ("PCB S A", "1 --\n"),
    ("S ISRT R : '001aa'", "2 -- R '001'\n"),
    ("S ISRT C : '01xx'", "3 -- C '00101'\n"),
    ("S ISRT G : 'g1'", "4 -- G '00101'\n"),
    ("S ISRT R : '002bb'", "5 -- R '002'\n"),
];

const NOT_ALLOWED: [Case; 9] = [
    ("PCB G G", "1 --\n"),
    ("PCB I I", "2 --\n"),
    ("PCB D RD", "3 --\n"),
    ("G ISRT R : '003cc'", "4 AM\n"),
    ("G REPL : '001bb'", "5 AM\n"),
    ("G DLET", "6 AM\n"),
    ("I GU R", "7 AM\n"),
    ("D ISRT", "8 AM\n"),
    ("D GHU R(K='001')", "9 -- R '001' '001aa'\n"),
];

const BADLY_ASKED: [Case; 17] = [
    ("PCB S A", "1 --\n"),
    ("S ISRT : '003cc'", "2 AH\n"),
    ("S ISRT R*D(K='001') C : '02xx'", "3 AJ\n"),
    ("S ISRT R C*L : '02xx'", "4 AJ\n"),
    ("S ISRT R C(CK='01') : '02xx'", "5 AJ\n"),
    ("S REPL R : '001bb'", "6 AJ\n"),
    ("S DLET R", "7 AJ\n"),
    ("S ISRT R(K='0001') C : '02xx'", "8 AJ\n"),
    ("S ISRT R(Z='1') C : '02xx'", "9 AK\n"),
    ("S ISRT Q : 'qq'", "10 AC\n"),
    ("S ISRT R G : 'g2'", "11 AC\n"),
    ("S ISRT C G : 'g2'", "12 AC\n"),
    ("S REPL : '001bb'", "13 DJ\n"),
    ("S DLET", "14 DJ\n"),
    ("S ISRT R", "15 +L\n"),
    ("S ISRT R : '003ccc'", "16 +L\n"),
    ("S ISRT R : X'303033'", "17 +L\n"),
];

const OF_DATA: [Case; 11] = [
    ("PCB S A", "1 --\n"),
    ("S GHU R(K='001')", "2 -- R '001' '001aa'\n"),
    ("S REPL", "3 +L\n"),
    ("S GHU R(K='001')", "4 -- R '001' '001aa'\n"),
    ("S REPL : '001aaa'", "5 +L\n"),
    ("S GHU R(K='001')", "6 -- R '001' '001aa'\n"),
    ("S DLET : '001aa'", "7 +L\n"),
    ("S DLET", "8 DJ\n"),
    ("S GHU R(K='001')", "9 -- R '001' '001aa'\n"),
    ("S REPL : '003aa'", "10 DA\n"),
    ("S REPL : '001ab'", "11 DJ\n"),
];

const OF_PLACES: [Case; 13] = [
    ("PCB S A", "1 --\n"),
    ("S ISRT C : '02xx'", "2 GE\n"),
    ("S ISRT R(K='009') C : '02xx'", "3 GE\n"),
    ("S ISRT R(K='99:') C : '02xx'", "4 FM\n"),
    ("S ISRT R : '99:xx'", "5 FM\n"),
    ("S ISRT R : '001zz'", "6 II\n"),
    ("S GU R(K='001')", "7 -- R '001' '001aa'\n"),
    ("S ISRT G : 'g2'", "8 GE\n"),
    ("S ISRT C : '01zz'", "9 -- C '00101'\n"),
    ("S GU R(K='001') C", "10 -- C '00101' '01xx'\n"),
    ("S GNP", "11 -- G '00101' 'g1'\n"),
    ("S GN", "12 GA C '00101' '01zz'\n"),
    ("S GN", "13 GA R '002' '002bb'\n"),
];

const AMONG_TWINS_ALONE: [Case; 8] = [
    ("PCB S A", "1 --\n"),
    ("S ISRT R : '001'", "2 -- R '001'\n"),
    ("S ISRT A : '01aa'", "3 -- A '00101'\n"),
    ("S ISRT R : '002'", "4 -- R '002'\n"),
    ("S ISRT A : '01bb'", "5 -- A '00201'\n"),
    ("S ISRT A : '01cc'", "6 II\n"),
    ("S ISRT R(K='001') A : '01dd'", "7 II\n"),
    ("S ISRT R(K='001') M : '01ee'", "8 -- M '00101'\n"),
];

const TAKEN_ENTRIES: [Case; 12] = [
    ("PCB S A", "1 --\n"),
    ("S ISRT R : '001aa'", "2 -- R '001'\n"),
    ("S ISRT R : '002bb'", "3 -- R '002'\n"),
    ("S ISRT R : '001bb'", "4 II\n"),
    ("S ISRT R : '003bb'", "5 NI\n"),
    ("S GHU R(K='001')", "6 -- R '001' '001aa'\n"),
    ("S REPL : '001bb'", "7 NI\n"),
    ("S GHU R(K='001')", "8 -- R '001' '001aa'\n"),
    ("S REPL : '001aa'", "9 --\n"),
    ("S GHU R(K='001')", "10 -- R '001' '001aa'\n"),
    ("S REPL : '001cc'", "11 --\n"),
    ("S ISRT R : '003aa'", "12 -- R '003'\n"),
];

const WITHOUT_ROOM: [Case; 5] = [
    ("PCB S A", "1 --\n"),
    ("S ISRT R : '001aa'", "2 +R 2\n"),
    ("S ISRT C : '01xx'", "3 GE\n"),
    ("S ISRT R", "4 +L\n"),
    ("S GU", "5 GE\n"),
];

const TWO_ROOTS: [Case; 3] = [
    ("PCB S A", "1 --\n"),
    ("S ISRT R : '001aa'", "2 -- R '001'\n"),
    ("S ISRT R : '002bb'", "3 -- R '002'\n"),
];

const NO_BLOCK: [Case; 8] = [
    ("PCB S A", "1 --\n"),
    ("S ISRT R : '003cc'", "2 +R 3\n"),
    ("S GHU R(K='001')", "3 -- R '001' '001aa'\n"),
    ("S REPL : '001cc'", "4 +R 1\n"),
    ("S GHU R(K='001')", "5 -- R '001' '001aa'\n"),
    ("S REPL : '001aa'", "6 --\n"),
    ("S GHU R(K='002')", "7 -- R '002' '002bb'\n"),
    ("S DLET", "8 --\n"),
];

const TWO_BLOCKS: [Case; 4] = [
    ("PCB S A", "1 --\n"),
    ("S ISRT R : '003cc'", "2 +R 3\n"),
    ("S GHU R(K='001')", "3 -- R '001' '001aa'\n"),
    ("S REPL : '001cc'", "4 --\n"),
];

const THREE_BLOCKS: [Case; 2] = [
    ("PCB S A", "1 --\n"),
    ("S ISRT R : '003aa'", "2 -- R '003'\n"),
];

/// The number of blocks at which the first script of one with an index isn't answered so.
fn wrong_room(alloc: Global) -> Result<Option<u32>, WalkFault> {
    let Some(mut desk) = empty(alloc, KXDB, 40) else {
        return Ok(Some(1_000));
    };
    let scripts = [
        (40, TWO_ROOTS.as_slice()),
        (0, NO_BLOCK.as_slice()),
        (2, TWO_BLOCKS.as_slice()),
        (3, THREE_BLOCKS.as_slice()),
    ];
    for (free, script) in scripts {
        desk.set_free(free);
        if first_wrong(&mut desk, script)?.is_some() {
            return Ok(Some(free));
        }
    }
    Ok(None)
}

#[test]
fn changes_that_are_not_allowed(rt: HostRuntime) -> Result<(), Fail> {
    let scripts = [FILLED.as_slice(), NOT_ALLOWED.as_slice()];
    assert_eq!(rt; wrong_of(rt.alloc(), KDB, 40, &scripts)?, None);
    Ok(())
}

#[test]
fn changes_that_are_badly_asked(rt: HostRuntime) -> Result<(), Fail> {
    let scripts = [
        FILLED.as_slice(),
        BADLY_ASKED.as_slice(),
        OF_DATA.as_slice(),
        OF_PLACES.as_slice(),
    ];
    assert_eq!(rt; wrong_of(rt.alloc(), KDB, 40, &scripts)?, None);
    Ok(())
}

#[test]
fn a_key_is_unique_among_twins_alone(rt: HostRuntime) -> Result<(), Fail> {
    assert_eq!(rt;
        wrong_of(rt.alloc(), TWINS, 40, &[AMONG_TWINS_ALONE.as_slice()])?,
        None
    );
    Ok(())
}

#[test]
fn entries_that_are_taken(rt: HostRuntime) -> Result<(), Fail> {
    assert_eq!(rt;
        wrong_of(rt.alloc(), KXDB, 40, &[TAKEN_ENTRIES.as_slice()])?,
        None
    );
    Ok(())
}

#[test]
fn changes_without_room(rt: HostRuntime) -> Result<(), Fail> {
    assert_eq!(rt;
        wrong_of(rt.alloc(), KDB, 1, &[WITHOUT_ROOM.as_slice()])?,
        None
    );
    Ok(())
}

#[test]
fn changes_need_blocks_by_their_entries(rt: HostRuntime) -> Result<(), Fail> {
    assert_eq!(rt; wrong_room(rt.alloc())?, None);
    Ok(())
}
