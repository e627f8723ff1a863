// Loads of rows that are good, and of rows that each break a rule.
use crate::{Case, first_wrong, refuses_a_second_load, schema_of};
use hal_schema::Schema;
use std::test::Fail;

const KDB: &str =
    "DBD NAME=KDB,ACCESS=(PHIDAM)\nSEGM NAME=R,PARENT=0,BYTES=5,RULES=(,LAST),DSGROUP=A\nFIELD NAME=(K,SEQ,U),BYTES=3,START=1,TYPE=C\nFIELD NAME=V,BYTES=2,START=4,TYPE=C\nLCHILD NAME=(VX,VDB),PTR=INDX\nXDFLD NAME=XV,SEGMENT=R,SRCH=(V)\nSEGM NAME=C,PARENT=R,BYTES=4,RULES=(,LAST),DSGROUP=A\nFIELD NAME=(CK,SEQ,M),BYTES=2,START=1,TYPE=C\nSEGM NAME=G,PARENT=C,BYTES=2,RULES=(,FIRST),DSGROUP=A\nSEGM NAME=U,PARENT=R,BYTES=4,RULES=(,FIRST),DSGROUP=A\nFIELD NAME=(UK,SEQ,U),BYTES=2,START=1,TYPE=C\nDBDGEN\nFINISH\nEND\n";

const KDB_PARTS: &str =
    "blocks = 40\n[[partition]]\nname = \"P1\"\nnumber = 1\nhigh = \"500\"\n[[partition]]\nname = \"P2\"\nnumber = 2\nhigh = \"999\"\n";

const HDB: &str =
    "DBD NAME=HDB,ACCESS=(PHDAM,OSAM),RMNAME=(DFSHDC40,2,2)\nSEGM NAME=R,BYTES=3\nFIELD NAME=(K,SEQ,U),BYTES=3,START=1\nSEGM NAME=C,PARENT=R,BYTES=1\nDBDGEN\nFINISH\nEND\n";

const HDB_PARTS: &str = "blocks = 40\n[[partition]]\nname = \"P1\"\nnumber = 1\nhigh = \"ZZZ\"\n";

const LOADED: [Case; 8] = [
    ("", 0, "", ""),
    ("R,T,001aa", 1, "", "R,T,001aa\n"),
    (
        "\n\r\nr,T,001aa\r\n\n\"R\",\"T\",\"002bb\"\nc,T,0\n",
        3,
        "",
        "R,T,001aa\nR,T,002bb\nC,T,0   \n",
    ),
    (
        "R,X,3030316161\nU,X,30313f7e",
        2,
        "",
        "R,T,001aa\nU,T,01?~\n",
    ),
    (
        "R,T,\"0\"\"1aa\"\nC,T,\"0,1\"\n",
        2,
        "",
        "R,T,\"0\"\"1aa\"\nC,T,\"0,1 \"\n",
    ),
    (
        "R,X,303031000a\nC,X,30311fab\nG,X,2c0d\nC,T,02\nU,X,2020207f\nR,T,002bb\n",
        6,
        "",
        "R,X,303031000A\nC,X,30311FAB\nG,X,2C0D\nC,T,02  \nU,X,2020207F\nR,T,002bb\n",
    ),
    (
        "R,T,001aa\nC,T,01aa\nC,T,01bb\n",
        3,
        "",
        "R,T,001aa\nC,T,01aa\nC,T,01bb\n",
    ),
    (
        "R,T,001aa\nC,T,01\nG,T,y\nG,T,x\nR,T,002bb\nC,T,01\n",
        6,
        "",
        "R,T,001aa\nC,T,01  \nG,T,y \nG,T,x \nR,T,002bb\nC,T,01  \n",
    ),
];

const REFUSED: [Case; 20] = [
    ("R,T\n", 1, "F1", ""),
    ("R,T,001aa\nR,T,001aa,x\n", 2, "F1", "R,T,001aa\n"),
    ("Q,T\n", 1, "F1", ""),
    ("Q,Z,001aa\n", 1, "F2", ""),
    ("R,t,001aa\n", 1, "F3", ""),
    ("R,T,001aaa\n", 1, "F3", ""),
    ("R,X,3030\n", 1, "F3", ""),
    ("R,X,303031616\n", 1, "F3", ""),
    ("R,X,30303161zz\n", 1, "F3", ""),
    ("C,T,001aaa\n", 1, "F3", ""),
    ("C,T,01\n", 1, "LD", ""),
    ("R,T,001aa\nG,T,x\n", 2, "LD", "R,T,001aa\n"),
    (
        "R,T,001aa\nC,T,02\nU,T,01\nC,T,01\n",
        4,
        "LE",
        "R,T,001aa\nC,T,02  \nU,T,01  \n",
    ),
    (
        "R,T,001aa\nC,T,02\nC,T,01\n",
        3,
        "LC",
        "R,T,001aa\nC,T,02  \n",
    ),
    ("R,T,002aa\nR,T,001aa\n", 2, "LC", "R,T,002aa\n"),
    ("R,T,001aa\nR,T,001bb\n", 2, "LB", "R,T,001aa\n"),
    (
        "R,T,001aa\nU,T,01aa\nU,T,01bb\n",
        3,
        "LB",
        "R,T,001aa\nU,T,01aa\n",
    ),
    (
        "R,T,001aa\nR,T,999bb\nR,T,99zcc\n",
        3,
        "FM",
        "R,T,001aa\nR,T,999bb\n",
    ),
    ("R,T,001aa\nR,T,99zaa\n", 2, "FM", "R,T,001aa\n"),
    ("R,T,001aa\nR,T,002aa\n", 2, "NI", "R,T,001aa\n"),
];

const BY_ANCHOR: [Case; 3] = [
    (
        "R,T,BAA\nC,T,x\nR,T,AAA\nR,T,AAD\n",
        4,
        "",
        "R,T,AAD\nR,T,AAA\nR,T,BAA\nC,T,x\n",
    ),
    ("R,T,BAA\nR,T,AAA\nR,T,BAA\n", 3, "LB", "R,T,AAA\nR,T,BAA\n"),
    ("R,T,zzz\n", 1, "FM", ""),
];

const WITH_TWO_BLOCKS: [Case; 2] = [("R,T,001aa\n", 1, "+R", ""), ("R,T,99zaa\n", 1, "FM", "")];

const WITH_THREE_BLOCKS: [Case; 1] = [("R,T,001aa\n", 1, "", "R,T,001aa\n")];

fn database(rt: &HostRuntime, dbd: &str, parts: &str) -> Result<Schema, Fail> {
    match schema_of(rt.alloc(), dbd, parts) {
        Some(schema) => Ok(schema),
        None => Err(Fail::from("no schema")),
    }
}

#[test]
fn good_rows_are_loaded_and_load_again(rt: HostRuntime) -> Result<(), Fail> {
    let schema = database(&rt, KDB, KDB_PARTS)?;
    let wrong = first_wrong(rt.alloc(), &schema, 40, &LOADED)?;
    assert_eq!(rt; wrong, None);
    Ok(())
}

#[test]
fn the_first_row_that_breaks_a_rule_is_said(rt: HostRuntime) -> Result<(), Fail> {
    let schema = database(&rt, KDB, KDB_PARTS)?;
    let wrong = first_wrong(rt.alloc(), &schema, 40, &REFUSED)?;
    assert_eq!(rt; wrong, None);
    Ok(())
}

#[test]
fn free_blocks_are_asked_last(rt: HostRuntime) -> Result<(), Fail> {
    let schema = database(&rt, KDB, KDB_PARTS)?;
    let wrong = first_wrong(rt.alloc(), &schema, 2, &WITH_TWO_BLOCKS)?;
    assert_eq!(rt; wrong, None);
    let wrong = first_wrong(rt.alloc(), &schema, 3, &WITH_THREE_BLOCKS)?;
    assert_eq!(rt; wrong, None);
    Ok(())
}

#[test]
fn roots_of_phdam_go_by_their_anchors(rt: HostRuntime) -> Result<(), Fail> {
    let schema = database(&rt, HDB, HDB_PARTS)?;
    let wrong = first_wrong(rt.alloc(), &schema, 40, &BY_ANCHOR)?;
    assert_eq!(rt; wrong, None);
    Ok(())
}

#[test]
fn a_list_with_rows_is_refused(rt: HostRuntime) -> Result<(), Fail> {
    let schema = database(&rt, KDB, KDB_PARTS)?;
    assert!(rt; refuses_a_second_load(rt.alloc(), &schema)?);
    Ok(())
}
