// Gets of a sample database of four types, as changes leave it: the replies are worked out by hand from the rules of DL/I.
use crate::{Case, Elements, Given, first_wrong, given, opened, place_of, schema_of};
use position_state::WalkFault;
use std::alloc::Global;
use std::test::Fail;

const DBD: &str = "\
DBD NAME=KDB,ACCESS=(PHIDAM)
SEGM NAME=R,PARENT=0,BYTES=5,RULES=(,LAST),DSGROUP=A
FIELD NAME=(K,SEQ,U),BYTES=3,START=1,TYPE=C
FIELD NAME=V,BYTES=2,START=4,TYPE=C
SEGM NAME=C,PARENT=R,BYTES=4,RULES=(,LAST),DSGROUP=A
FIELD NAME=(CK,SEQ,M),BYTES=2,START=1,TYPE=C
SEGM NAME=G,PARENT=C,BYTES=2,RULES=(,LAST),DSGROUP=A
SEGM NAME=U,PARENT=R,BYTES=4,RULES=(,FIRST),DSGROUP=A
FIELD NAME=(UK,SEQ,M),BYTES=2,START=1,TYPE=C
DBDGEN
FINISH
END
";

const PARTS: &str = "\
blocks = 40
[[partition]]
name = \"P1\"
number = 1
high = \"500\"
[[partition]]
name = \"P2\"
number = 2
high = \"999\"
";

const ONE_ROOT: [Given; 1] = [(1, 1, "001", "001aa")];

const A_ROOT_IN_THE_MIDDLE: [Given; 1] = [(1, 1, "500", "500bb")];

/// Elements of C stand as they came, those of U the last first.
const WITH_TWINS: [Given; 5] = [
    (1, 1, "001", "001aa"),
    (2, 2, "00101", "01xx"),
    (2, 2, "00101", "01yy"),
    (4, 2, "00101", "01qq"),
    (4, 2, "00101", "01pp"),
];

const OF_THREE_LEVELS: [Given; 7] = [
    (1, 1, "001", "001aa"),
    (2, 2, "00101", "01xx"),
    (3, 3, "00101", "g1"),
    (2, 2, "00101", "01yy"),
    (4, 2, "00101", "01qq"),
    (4, 2, "00101", "01pp"),
    (1, 1, "002", "002bb"),
];

/// The first C is deleted, and the G below it.
const AFTER_A_DELETE: [Given; 5] = [
    (1, 1, "001", "001aa"),
    (2, 2, "00101", "01yy"),
    (4, 2, "00101", "01qq"),
    (4, 2, "00101", "01pp"),
    (1, 1, "002", "002dd"),
];

fn sample(alloc: Global, rows: &[Given]) -> Result<Option<Elements>, WalkFault> {
    match schema_of(alloc, DBD, PARTS) {
        None => Ok(None),
        Some(schema) => Ok(Some(given(alloc, schema, rows)?)),
    }
}

/// The first of these lines whose reply isn't so, in a session with these options over these elements.
fn wrong(
    alloc: Global,
    rows: &[Given],
    options: &[u8],
    cases: &[Case],
) -> Result<Option<usize>, WalkFault> {
    let Some(mut elements) = sample(alloc, rows)? else {
        return Ok(Some(1_000));
    };
    first_wrong(alloc, &mut elements, opened(alloc, options)?, cases)
}

#[test]
fn a_root_is_found_by_its_key(rt: HostRuntime) -> Result<(), Fail> {
    let cases: [Case; 1] = [("S GU R(K='001')", "1 -- R '001' '001aa'\n")];
    let place = wrong(rt.alloc(), ONE_ROOT.as_slice(), b"A", cases.as_slice())?;
    assert_eq!(rt; place, None);
    Ok(())
}

#[test]
fn an_empty_database_is_at_its_end(rt: HostRuntime) -> Result<(), Fail> {
    let cases: [Case; 3] = [("S GN", "1 GB\n"), ("S GN", "1 GB\n"), ("S GU", "1 GE\n")];
    let place = wrong(rt.alloc(), [].as_slice(), b"G", cases.as_slice())?;
    assert_eq!(rt; place, None);
    Ok(())
}

#[test]
fn a_key_above_every_high_key_is_refused(rt: HostRuntime) -> Result<(), Fail> {
    let cases: [Case; 2] = [("S GU R(K='99:')", "1 FM\n"), ("S GU R(K>'99:')", "1 GE\n")];
    let place = wrong(
        rt.alloc(),
        A_ROOT_IN_THE_MIDDLE.as_slice(),
        b"A",
        cases.as_slice(),
    )?;
    assert_eq!(rt; place, None);
    Ok(())
}

#[test]
fn twins_come_in_their_order(rt: HostRuntime) -> Result<(), Fail> {
    let cases: [Case; 5] = [
        ("S GU R(K='001')", "1 -- R '001' '001aa'\n"),
        ("S GN C", "1 -- C '00101' '01xx'\n"),
        ("S GN C", "1 -- C '00101' '01yy'\n"),
        ("S GN U", "1 -- U '00101' '01qq'\n"),
        ("S GN U", "1 -- U '00101' '01pp'\n"),
    ];
    let place = wrong(rt.alloc(), WITH_TWINS.as_slice(), b"A", cases.as_slice())?;
    assert_eq!(rt; place, None);
    Ok(())
}

#[test]
fn a_get_next_says_what_it_crosses(rt: HostRuntime) -> Result<(), Fail> {
    let cases: [Case; 9] = [
        ("S GU", "1 -- R '001' '001aa'\n"),
        ("S GN", "1 -- C '00101' '01xx'\n"),
        ("S GN", "1 -- G '00101' 'g1'\n"),
        ("S GN", "1 GA C '00101' '01yy'\n"),
        ("S GN", "1 GK U '00101' '01qq'\n"),
        ("S GN", "1 -- U '00101' '01pp'\n"),
        ("S GN", "1 GA R '002' '002bb'\n"),
        ("S GN", "1 GB\n"),
        ("S GN", "1 -- R '001' '001aa'\n"),
    ];
    let place = wrong(
        rt.alloc(),
        OF_THREE_LEVELS.as_slice(),
        b"A",
        cases.as_slice(),
    )?;
    assert_eq!(rt; place, None);
    Ok(())
}

#[test]
fn a_gnp_needs_parentage_and_stays_below_it(rt: HostRuntime) -> Result<(), Fail> {
    let cases: [Case; 4] = [
        ("S GNP", "1 GP\n"),
        ("S GU R(K='001') C(CK='01')", "1 -- C '00101' '01xx'\n"),
        ("S GNP", "1 -- G '00101' 'g1'\n"),
        ("S GNP", "1 GE\n"),
    ];
    let place = wrong(
        rt.alloc(),
        OF_THREE_LEVELS.as_slice(),
        b"G",
        cases.as_slice(),
    )?;
    assert_eq!(rt; place, None);
    Ok(())
}

#[test]
fn a_path_leads_to_what_is_held(rt: HostRuntime) -> Result<(), Fail> {
    let cases: [Case; 3] = [
        ("S GHU R(K='002')", "1 -- R '002' '002bb'\n"),
        ("S GU R(K='001') C(CK='01') G", "1 -- G '00101' 'g1'\n"),
        ("S GHU R(K='001') C(CK='01')", "1 -- C '00101' '01xx'\n"),
    ];
    let place = wrong(
        rt.alloc(),
        OF_THREE_LEVELS.as_slice(),
        b"A",
        cases.as_slice(),
    )?;
    assert_eq!(rt; place, None);
    Ok(())
}

/// A session whose element another one deleted is at the root before it, without parentage.
#[test]
fn a_get_next_goes_on_where_a_delete_left_it(rt: HostRuntime) -> Result<(), Fail> {
    let cases: [Case; 2] = [("S GNP", "1 GP\n"), ("S GN", "1 -- C '00101' '01yy'\n")];
    let mut elements = sample(rt.alloc(), AFTER_A_DELETE.as_slice())?.ok_or("a schema")?;
    let mut session = opened(rt.alloc(), b"G")?;
    session.anchor = place_of(rt.alloc(), 0, b"001")?;
    let place = first_wrong(rt.alloc(), &mut elements, session, cases.as_slice())?;
    assert_eq!(rt; place, None);
    Ok(())
}

#[test]
fn refusals_come_in_their_order(rt: HostRuntime) -> Result<(), Fail> {
    let cases: [Case; 6] = [
        ("S GU R(K='0011')", "1 AJ\n"),
        ("S GU R(Z='1')", "1 AK\n"),
        ("S GU C R", "1 AC\n"),
        ("S GU R : 'x'", "1 +L\n"),
        ("S GU R(K=X'30')", "1 AJ\n"),
        ("S GU C(CK='0011') R(Z='1') : 'x'", "1 AJ\n"),
    ];
    let place = wrong(rt.alloc(), [].as_slice(), b"G", cases.as_slice())?;
    assert_eq!(rt; place, None);
    Ok(())
}
