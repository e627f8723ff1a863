// Where new rows go among their twins, and below which parent.
use crate::Case;
use crate::tests::{KDB, TWINS, wrong_of};
use std::test::Fail;

const PUT: [Case; 16] = [
    ("PCB S A", "1 --\n"),
    ("S ISRT R : '001'", "2 -- R '001'\n"),
    ("S ISRT R(K='001') A : '05aa'", "3 -- A '00105'\n"),
    ("S ISRT R(K='001') L : 'l1'", "4 -- L '001'\n"),
    ("S ISRT R(K='001') A : '09bb'", "5 -- A '00109'\n"),
    ("S ISRT R(K='001') A : '01cc'", "6 -- A '00101'\n"),
    ("S ISRT R(K='001') E : 'e1'", "7 -- E '001'\n"),
    ("S ISRT R(K='001') M : '05x1'", "8 -- M '00105'\n"),
    ("S ISRT R(K='001') M : '05x2'", "9 -- M '00105'\n"),
    ("S ISRT R(K='001') M : '01x3'", "10 -- M '00101'\n"),
    ("S ISRT R(K='001') E : 'e2'", "11 -- E '001'\n"),
    ("S ISRT R(K='001') L : 'l2'", "12 -- L '001'\n"),
    ("S ISRT R : '003'", "13 -- R '003'\n"),
    ("S ISRT R : '000'", "14 -- R '000'\n"),
    ("S ISRT R : '002'", "15 -- R '002'\n"),
    ("S ISRT R(K='001') A : '05'", "16 II\n"),
];

const STAND: [Case; 15] = [
    ("PCB S G", "1 --\n"),
    ("S GN", "2 -- R '000' '000'\n"),
    ("S GN", "3 -- R '001' '001'\n"),
    ("S GN", "4 -- A '00101' '01cc'\n"),
    ("S GN", "5 -- A '00105' '05aa'\n"),
    ("S GN", "6 -- A '00109' '09bb'\n"),
    ("S GN", "7 GK M '00101' '01x3'\n"),
    ("S GN", "8 -- M '00105' '05x1'\n"),
    ("S GN", "9 -- M '00105' '05x2'\n"),
    ("S GN", "10 GK E '001' 'e2'\n"),
    ("S GN", "11 -- E '001' 'e1'\n"),
    ("S GN", "12 GK L '001' 'l1'\n"),
    ("S GN", "13 -- L '001' 'l2'\n"),
    ("S GN", "14 GA R '002' '002'\n"),
    ("S GN", "15 -- R '003' '003'\n"),
];

/// A lone SSA goes by the position, also by that which an ISRT left; several go by what they find first.
const BELOW: [Case; 17] = [
    ("PCB S A", "1 --\n"),
    ("S ISRT R : '001aa'", "2 -- R '001'\n"),
    ("S ISRT C : '01xx'", "3 -- C '00101'\n"),
    ("S ISRT C : '01yy'", "4 -- C '00101'\n"),
    ("S ISRT G : 'g1'", "5 -- G '00101'\n"),
    ("S ISRT R C G : 'g2'", "6 -- G '00101'\n"),
    ("S ISRT R C(CK>'01') G : 'g3'", "7 GE\n"),
    ("S GU R(K='001') C(CK='01') G", "8 -- G '00101' 'g2'\n"),
    ("S GN C", "9 -- C '00101' '01yy'\n"),
    ("S GN", "10 -- G '00101' 'g1'\n"),
    ("S ISRT U : '01uu'", "11 -- U '00101'\n"),
    ("S ISRT C : '00zz'", "12 -- C '00100'\n"),
    ("S ISRT G : X'6734'", "13 -- G '00100'\n"),
    ("S GU C", "14 -- C '00100' '00zz'\n"),
    ("S GN", "15 -- G '00100' 'g4'\n"),
    ("S GN", "16 GA C '00101' '01xx'\n"),
    ("S ISRT C : '07'", "17 -- C '00107'\n"),
];

#[test]
fn twins_stand_by_keys_and_rules(rt: HostRuntime) -> Result<(), Fail> {
    let scripts = [PUT.as_slice(), STAND.as_slice()];
    assert_eq!(rt; wrong_of(rt.alloc(), TWINS, 40, &scripts)?, None);
    Ok(())
}

#[test]
fn rows_go_below_their_parents(rt: HostRuntime) -> Result<(), Fail> {
    assert_eq!(rt; wrong_of(rt.alloc(), KDB, 40, &[BELOW.as_slice()])?, None);
    Ok(())
}
