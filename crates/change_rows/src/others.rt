// What the changes of one session leave of others: their holds, their parentage and their positions.
use crate::Case;
use crate::tests::{KDB, wrong_of};
use std::test::Fail;

const FILLED: [Case; 9] = [
    ("PCB S A", "1 --\n"),
    ("S ISRT R : '001aa'", "2 -- R '001'\n"),
    ("S ISRT C : '01xx'", "3 -- C '00101'\n"),
    ("S ISRT G : 'g1'", "4 -- G '00101'\n"),
    ("S ISRT G : 'g2'", "5 -- G '00101'\n"),
    ("S ISRT C : '02yy'", "6 -- C '00102'\n"),
    ("S ISRT U : '01uu'", "7 -- U '00101'\n"),
    ("S ISRT R : '002bb'", "8 -- R '002'\n"),
    ("S ISRT C : '01zz'", "9 -- C '00201'\n"),
];

const A_HOLD_ENDS: [Case; 11] = [
    ("PCB S A", "1 --\n"),
    ("PCB T A", "2 --\n"),
    ("S GHU R C(CK='02')", "3 -- C '00102' '02yy'\n"),
    ("T GHU R C(CK='02')", "4 -- C '00102' '02yy'\n"),
    ("T REPL : '02yz'", "5 --\n"),
    ("S REPL : '02zz'", "6 DJ\n"),
    ("S GHU R C(CK='02')", "7 -- C '00102' '02yz'\n"),
    ("T GHU R C(CK='01')", "8 -- C '00101' '01xx'\n"),
    ("T REPL : '01xy'", "9 --\n"),
    ("S REPL : '02yy'", "10 --\n"),
    ("T REPL : '01xx'", "11 DJ\n"),
];

const PARENTAGE_ENDS: [Case; 14] = [
    ("PCB S A", "1 --\n"),
    ("PCB T A", "2 --\n"),
    ("S GU R C(CK='01')", "3 -- C '00101' '01xy'\n"),
    ("S GNP", "4 -- G '00101' 'g1'\n"),
    ("T GHU R C(CK='01') G(GV='g1')", "5 AK\n"),
    ("T GHU R C(CK='01') G", "6 -- G '00101' 'g1'\n"),
    ("T DLET", "7 --\n"),
    ("S GNP", "8 -- G '00101' 'g2'\n"),
    ("T GHU R C(CK='01')", "9 -- C '00101' '01xy'\n"),
    ("T DLET", "10 --\n"),
    ("S GNP", "11 GP\n"),
    ("S GN", "12 -- C '00102' '02yy'\n"),
    ("T GNP", "13 GP\n"),
    ("T GN", "14 -- C '00102' '02yy'\n"),
];

const A_RECORD_GOES: [Case; 10] = [
    ("PCB S A", "1 --\n"),
    ("PCB T A", "2 --\n"),
    ("S GHU R(K='002') C", "3 -- C '00201' '01zz'\n"),
    ("T ISRT R(K='002') C : '00aa'", "4 -- C '00200'\n"),
    ("T GHU R(K='002')", "5 -- R '002' '002bb'\n"),
    ("T DLET", "6 --\n"),
    ("S REPL : '01zy'", "7 DJ\n"),
    ("S GN", "8 GB\n"),
    ("T ISRT C : '03tt'", "9 -- C '00103'\n"),
    ("S GU R(K='002')", "10 GE\n"),
];

#[test]
fn changes_of_one_session_leave_others(rt: HostRuntime) -> Result<(), Fail> {
    let scripts = [
        FILLED.as_slice(),
        A_HOLD_ENDS.as_slice(),
        PARENTAGE_ENDS.as_slice(),
        A_RECORD_GOES.as_slice(),
    ];
    assert_eq!(rt; wrong_of(rt.alloc(), KDB, 40, &scripts)?, None);
    Ok(())
}
