// Gets of each kind and each of their statuses, and how often they look.
use crate::{
    Case, Counted, Given, deep, first_longer, first_wrong, given, many, opened, place_of,
    schema_of, wide,
};
use position_state::{Session, WalkFault};
use std::alloc::Global;
use std::test::Fail;

const DBD: &str =
    "DBD NAME=KDB,ACCESS=(PHIDAM)\nSEGM NAME=R,PARENT=0,BYTES=8\nFIELD NAME=(K,SEQ,U),BYTES=3,START=1,TYPE=C\nFIELD NAME=A,BYTES=2,START=4,TYPE=C\nFIELD NAME=B,BYTES=5,START=4,TYPE=C\nSEGM NAME=C,PARENT=R,BYTES=4,RULES=(,LAST)\nFIELD NAME=(CK,SEQ,M),BYTES=2,START=1,TYPE=C\nFIELD NAME=CV,BYTES=2,START=3,TYPE=C\nSEGM NAME=G,PARENT=C,BYTES=2,RULES=(,LAST)\nFIELD NAME=GV,BYTES=2,START=1,TYPE=C\nSEGM NAME=U,PARENT=R,BYTES=1,RULES=(,LAST)\nFIELD NAME=UV,BYTES=1,START=1,TYPE=C\nDBDGEN\nFINISH\nEND\n";

const PARTS: &str = "blocks = 40\n[[partition]]\nname = \"P1\"\nnumber = 1\nhigh = \"999\"\n";

const DEEP: &str =
    "DBD NAME=DEEP,ACCESS=(PHIDAM)\nSEGM NAME=T1,PARENT=0,BYTES=1\nFIELD NAME=(K,SEQ,U),BYTES=1,START=1,TYPE=C\nSEGM NAME=T2,PARENT=T1,BYTES=1\nSEGM NAME=T3,PARENT=T2,BYTES=1\nSEGM NAME=T4,PARENT=T3,BYTES=1\nSEGM NAME=T5,PARENT=T4,BYTES=1\nSEGM NAME=T6,PARENT=T5,BYTES=1\nSEGM NAME=T7,PARENT=T6,BYTES=1\nSEGM NAME=T8,PARENT=T7,BYTES=1\nSEGM NAME=T9,PARENT=T8,BYTES=1\nSEGM NAME=T10,PARENT=T9,BYTES=1\nSEGM NAME=T11,PARENT=T10,BYTES=1\nSEGM NAME=T12,PARENT=T11,BYTES=1\nSEGM NAME=T13,PARENT=T12,BYTES=1\nSEGM NAME=T14,PARENT=T13,BYTES=1\nSEGM NAME=T15,PARENT=T14,BYTES=1\nDBDGEN\nFINISH\nEND\n";

const DEEP_PARTS: &str = "blocks = 40\n[[partition]]\nname = \"P1\"\nnumber = 1\nhigh = \"z\"\n";

const ROWS: [Given; 10] = [
    (1, 1, "001", "001aaxyz"),
    (2, 2, "00101", "01xx"),
    (3, 3, "00101", "g1"),
    (2, 2, "00101", "01yy"),
    (3, 3, "00101", "g2"),
    (2, 2, "00102", "02xx"),
    (4, 2, "001", "q"),
    (1, 1, "002", "002bb   "),
    (2, 2, "00201", "01xx"),
    (1, 1, "003", "003ab  z"),
];

const IN_SEQUENCE: [Case; 13] = [
    ("S GU R(K='001')", "1 -- R '001' '001aaxyz'\n"),
    ("S GN", "1 -- C '00101' '01xx'\n"),
    ("S GN", "1 -- G '00101' 'g1'\n"),
    ("S GN", "1 GA C '00101' '01yy'\n"),
    ("S GN", "1 -- G '00101' 'g2'\n"),
    ("S GN", "1 GA C '00102' '02xx'\n"),
    ("S GN", "1 GK U '001' 'q'\n"),
    ("S GN", "1 GA R '002' '002bb   '\n"),
    ("S GN", "1 -- C '00201' '01xx'\n"),
    ("S GHN", "1 GA R '003' '003ab  z'\n"),
    ("S GN", "1 GB\n"),
    ("S GNP C", "1 GP\n"),
    ("S GN R", "1 -- R '001' '001aaxyz'\n"),
];

const WITHIN_PARENT: [Case; 13] = [
    ("S GNP C", "1 GP\n"),
    ("S GU R(K='001')", "1 -- R '001' '001aaxyz'\n"),
    ("S GNP C(CV='xx')", "1 -- C '00101' '01xx'\n"),
    ("S GNP", "1 -- G '00101' 'g1'\n"),
    ("S GNP G", "1 -- G '00101' 'g2'\n"),
    ("S GHNP C", "1 -- C '00102' '02xx'\n"),
    ("S GNP C", "1 GE\n"),
    ("S GNP", "1 GK U '001' 'q'\n"),
    ("S GNP", "1 GE\n"),
    ("S GU R(K='001') C(CV='yy')", "1 -- C '00101' '01yy'\n"),
    ("S GNP", "1 -- G '00101' 'g2'\n"),
    ("S GNP", "1 GE\n"),
    ("S GN U", "1 -- U '001' 'q'\n"),
];

const BY_CODES: [Case; 9] = [
    (
        "S GU R*D(K='001') C(CK='02')",
        "1 -- C '00102' '001aaxyz02xx'\n",
    ),
    ("S GU R*D(K='001') C*L", "1 -- C '00102' '001aaxyz02xx'\n"),
    ("S GU R C*L(CV='xx')", "1 -- C '00102' '02xx'\n"),
    (
        "S GU R*D C*DL(CK='01') G",
        "1 -- G '00101' '001aaxyz01yyg2'\n",
    ),
    ("S GU R*L", "1 -- R '003' '003ab  z'\n"),
    (
        "S GHU R*D(K='002') C*D(CK='01')",
        "1 -- C '00201' '002bb   01xx'\n",
    ),
    ("S GU R C*D G(GV='g2')", "1 -- G '00101' '01yyg2'\n"),
    ("S GN R*L", "1 -- R '003' '003ab  z'\n"),
    ("S GN C*L", "1 GB\n"),
];

const BY_VALUES: [Case; 14] = [
    ("S GU R(A='ab'|A='bb'&K='001')", "1 -- R '003' '003ab  z'\n"),
    ("S GU R(A='aa'&K='002'|B='bb')", "1 -- R '002' '002bb   '\n"),
    (
        "S GU R(K>'001'&K<'003'&A NE 'aa')",
        "1 -- R '002' '002bb   '\n",
    ),
    (
        "S GU R(K='009'|K='008'|K>='003')",
        "1 -- R '003' '003ab  z'\n",
    ),
    ("S GU R(K=X'303032')", "1 -- R '002' '002bb   '\n"),
    ("S GU R(B='bb')", "1 -- R '002' '002bb   '\n"),
    ("S GU R(B=X'6262202020')", "1 -- R '002' '002bb   '\n"),
    ("S GU R(A='ab'&B='ab  z')", "1 -- R '003' '003ab  z'\n"),
    ("S GU R(A='ab'&B='ab')", "1 GE\n"),
    ("S GU C(CK<='01'&CV>'xx')", "1 -- C '00101' '01yy'\n"),
    (
        "S GU C(CK='01'&CV='xx'|CV='yy'&CK='02')",
        "1 -- C '00101' '01xx'\n",
    ),
    (
        "S GN C(CK='01'&CV='xx'|CV='yy'&CK='02')",
        "1 -- C '00201' '01xx'\n",
    ),
    ("S GN C(CK='01'&CV='xx'|CV='yy'&CK='02')", "1 GE\n"),
    ("S GN C", "1 GB\n"),
];

const REFUSED: [Case; 12] = [
    ("S GU R(K='004')", "1 GE\n"),
    ("S GN R(K='004')", "1 GE\n"),
    ("S GU R(K='99Z')", "1 FM\n"),
    ("S GU R(Q='1')", "1 AK\n"),
    ("S GU R(K='0001')", "1 AJ\n"),
    ("S GU R(K=X'30')", "1 AJ\n"),
    ("S GU Q", "1 AC\n"),
    ("S GU C R", "1 AC\n"),
    ("S GU R*Q", "1 AJ\n"),
    ("S GU R(K='001') : 'aa'", "1 +L\n"),
    ("S GU R(K='001') C(CK='03')", "1 GE\n"),
    ("S GHNP", "1 GP\n"),
];

const OF_FIFTEEN_LEVELS: [Case; 8] = [
    ("S GU T1(K='a') T15", "1 -- T15 'a' 'a'\n"),
    ("S GU T15", "1 -- T15 'a' 'a'\n"),
    ("S GN", "1 GB\n"),
    ("S GU T1*D T7*D T15", "1 -- T15 'a' 'aaa'\n"),
    ("S GU T14", "1 -- T14 'a' 'a'\n"),
    ("S GNP", "1 -- T15 'a' 'a'\n"),
    (
        "S GU T1 T2 T3 T4 T5 T6 T7 T8 T9 T10 T11 T12 T13 T14 T15",
        "1 -- T15 'a' 'a'\n",
    ),
    (
        "S GU T1 T2 T3 T4 T5 T6 T7 T8 T9 T10 T11 T12 T13 T14 T15 T1",
        "1 AJ\n",
    ),
];

/// Over 1,000 records of four elements each.
const LOOKS: [Counted; 11] = [
    ("S GU R(K='500')", 1),
    ("S GU R(K='500') C(CK='02')", 6),
    ("S GU R(K='500') C(CK='09')", 6),
    ("S GN", 2),
    ("S GU R(A='zz')", 1_002),
    ("S GU R(K='500')", 1),
    ("S GNP C(CK='02')", 5),
    ("S GN R(K='700')", 203),
    ("S GU C(CV='zz')", 3_002),
    ("S GU R(K='500')", 1),
    ("S GN R", 5),
];

const UNSEEN: [Counted; 7] = [
    ("S GU R*Q", 0),
    ("S GU R(Q='1')", 0),
    ("S GU Q", 0),
    ("S GU C R", 0),
    ("S GNP", 0),
    ("S GU R(K='001') : 'aa'", 0),
    ("S GU R(K='99Z')", 0),
];

/// The first of these lines whose reply isn't so, in a session with these options.
fn wrong(alloc: Global, options: &[u8], cases: &[Case]) -> Result<Option<usize>, WalkFault> {
    let Some(schema) = schema_of(alloc, DBD, PARTS) else {
        return Ok(Some(1_000));
    };
    let mut elements = given(alloc, schema, ROWS.as_slice())?;
    first_wrong(alloc, &mut elements, opened(alloc, options)?, cases)
}

fn wrong_of_deep(alloc: Global) -> Result<Option<usize>, WalkFault> {
    let Some(schema) = schema_of(alloc, DEEP, DEEP_PARTS) else {
        return Ok(Some(1_000));
    };
    let mut elements = deep(alloc, schema, 15)?;
    first_wrong(
        alloc,
        &mut elements,
        opened(alloc, b"G")?,
        OF_FIFTEEN_LEVELS.as_slice(),
    )
}

/// The first of these lines that looks more often, in a session over 1,000 records.
fn longer(alloc: Global, session: Session, cases: &[Counted]) -> Result<Option<usize>, WalkFault> {
    let Some(schema) = schema_of(alloc, DBD, PARTS) else {
        return Ok(Some(1_000));
    };
    let mut elements = many(alloc, schema, 1_000)?;
    first_longer(alloc, &mut elements, session, cases)
}

/// The first of these lines that looks more often, where the first root has 1,000 dependents of one type.
fn longer_in_a_wide_record(alloc: Global, cases: &[Counted]) -> Result<Option<usize>, WalkFault> {
    let Some(schema) = schema_of(alloc, DBD, PARTS) else {
        return Ok(Some(1_000));
    };
    let mut elements = wide(alloc, schema, 1_000)?;
    first_longer(alloc, &mut elements, opened(alloc, b"A")?, cases)
}

/// A session at the root of one record, with the root of another as its parent.
fn apart(alloc: Global, at: (u16, &[u8]), parent: (u16, &[u8])) -> Result<Session, WalkFault> {
    let mut session = opened(alloc, b"A")?;
    session.anchor = place_of(alloc, u64::from(at.0) * 4, at.1)?;
    session.parent = Some(place_of(alloc, u64::from(parent.0) * 4, parent.1)?);
    Ok(session)
}

#[test]
fn gets_in_sequence(rt: HostRuntime) -> Result<(), Fail> {
    assert_eq!(rt; wrong(rt.alloc(), b"A", IN_SEQUENCE.as_slice())?, None);
    Ok(())
}

#[test]
fn gets_within_a_parent(rt: HostRuntime) -> Result<(), Fail> {
    assert_eq!(rt; wrong(rt.alloc(), b"R", WITHIN_PARENT.as_slice())?, None);
    Ok(())
}

#[test]
fn codes_d_and_l(rt: HostRuntime) -> Result<(), Fail> {
    assert_eq!(rt; wrong(rt.alloc(), b"D", BY_CODES.as_slice())?, None);
    Ok(())
}

#[test]
fn values_of_fields(rt: HostRuntime) -> Result<(), Fail> {
    assert_eq!(rt; wrong(rt.alloc(), b"IG", BY_VALUES.as_slice())?, None);
    Ok(())
}

#[test]
fn gets_that_are_refused(rt: HostRuntime) -> Result<(), Fail> {
    assert_eq!(rt; wrong(rt.alloc(), b"G", REFUSED.as_slice())?, None);
    Ok(())
}

#[test]
fn gets_that_are_not_allowed(rt: HostRuntime) -> Result<(), Fail> {
    assert_eq!(rt;
        wrong(rt.alloc(), b"I", [("S GU R(Q='1')", "1 AM\n")].as_slice())?,
        None
    );
    Ok(())
}

#[test]
fn fifteen_levels(rt: HostRuntime) -> Result<(), Fail> {
    assert_eq!(rt; wrong_of_deep(rt.alloc())?, None);
    Ok(())
}

#[test]
fn looks_of_each_kind(rt: HostRuntime) -> Result<(), Fail> {
    let session = opened(rt.alloc(), b"A")?;
    assert_eq!(rt; longer(rt.alloc(), session, LOOKS.as_slice())?, None);
    Ok(())
}

#[test]
fn a_get_passes_over_what_no_ssa_asks_for(rt: HostRuntime) -> Result<(), Fail> {
    let cases: [Counted; 4] = [
        ("S GU C", 3),
        ("S GN R", 4),
        ("S GU R(A='zz')", 4),
        ("S GU U", 1_004),
    ];
    assert_eq!(rt;
        longer_in_a_wide_record(rt.alloc(), cases.as_slice())?,
        None
    );
    Ok(())
}

#[test]
fn a_gnp_walks_no_other_record(rt: HostRuntime) -> Result<(), Fail> {
    let ahead = apart(rt.alloc(), (100, b"100"), (500, b"500"))?;
    assert_eq!(rt;
        longer(rt.alloc(), ahead, [("S GNP C(CK='02')", 6)].as_slice())?,
        None
    );
    let behind = apart(rt.alloc(), (900, b"900"), (500, b"500"))?;
    assert_eq!(rt;
        longer(rt.alloc(), behind, [("S GNP C", 1)].as_slice())?,
        None
    );
    Ok(())
}

#[test]
fn a_refusal_by_text_or_session_looks_at_nothing(rt: HostRuntime) -> Result<(), Fail> {
    let session = opened(rt.alloc(), b"A")?;
    assert_eq!(rt; longer(rt.alloc(), session, UNSEEN.as_slice())?, None);
    Ok(())
}
