use crate::read_dbd;
use hal_base::{Bytes, List, Name8};
use hal_schema::{RawDbd, RawIndex, RawType, TextFault};
use std::test::Fail;

fn put(rt: &HostRuntime, out: &mut Bytes, text: &str, number: usize) -> Result<(), Fail> {
    out.append(text.as_bytes())?;
    let digits = format!(in rt.alloc(); "{number}")?;
    out.append(digits.as_bytes())?;
    Ok(())
}

fn put_names(out: &mut Bytes, names: &List<Name8>) -> Result<(), Fail> {
    out.append(b" (")?;
    for name in names.as_slice() {
        out.append(name.as_slice())?;
        out.append(b" ")?;
    }
    out.append(b")")?;
    Ok(())
}

fn put_type(rt: &HostRuntime, out: &mut Bytes, t: &RawType) -> Result<(), Fail> {
    put(rt, out, "\nSEGM ", t.line as usize)?;
    out.append(b" ")?;
    out.append(t.name.as_slice())?;
    match t.parent {
        Some(parent) => {
            out.append(b" ")?;
            out.append(parent.as_slice())?;
        }
        None => out.append(b" 0")?,
    }
    put(rt, out, " ", t.bytes as usize)?;
    out.append(if t.first { b" FIRST " } else { b" LAST  " })?;
    out.push(t.letter)?;
    for field in t.fields.as_slice() {
        put(rt, out, "\nFIELD ", field.line as usize)?;
        out.append(b" ")?;
        out.append(field.name.as_slice())?;
        put(rt, out, " ", field.bytes as usize)?;
        put(rt, out, " ", field.start as usize)?;
        put(rt, out, " ", field.seq as usize)?;
    }
    Ok(())
}

fn put_index(rt: &HostRuntime, out: &mut Bytes, index: &RawIndex) -> Result<(), Fail> {
    put(rt, out, "\nXDFLD ", index.line as usize)?;
    for name in [
        index.seg,
        index.name,
        index.xdfld,
        index.target,
        index.source,
    ] {
        out.append(b" ")?;
        out.append(name.as_slice())?;
    }
    put_names(out, &index.search)?;
    put_names(out, &index.subseq)
}

fn put_dbd(rt: &HostRuntime, out: &mut Bytes, dbd: &RawDbd) -> Result<(), Fail> {
    out.append(b"DBD ")?;
    out.append(dbd.name.as_slice())?;
    out.append(if dbd.phdam { b" PHDAM " } else { b" PHIDAM" })?;
    if let Some(rm) = dbd.rm {
        out.append(b" ")?;
        out.append(rm.as_slice())?;
    }
    put(rt, out, " ", dbd.anch as usize)?;
    put(rt, out, " ", dbd.rbn as usize)?;
    for t in dbd.types.as_slice() {
        put_type(rt, out, t)?;
    }
    for index in dbd.indexes.as_slice() {
        put_index(rt, out, index)?;
    }
    Ok(())
}

/// What a text says, statement by statement with its line, and how many bytes stand behind END; or the rule
/// and the line.
fn said(rt: &HostRuntime, text: &[u8]) -> Result<Bytes, Fail> {
    let mut out = Bytes::new(rt.alloc());
    if text.len() >= 4_294_967_295 {
        return Ok(out);
    }
    match read_dbd(rt.alloc(), text) {
        Ok((dbd, at)) => {
            put_dbd(rt, &mut out, &dbd)?;
            put(rt, &mut out, "\nleft ", text.len().saturating_sub(at))?;
        }
        Err(TextFault::Rule { rule, line }) => {
            put(rt, &mut out, "rule ", rule as usize)?;
            put(rt, &mut out, " line ", line as usize)?;
        }
        Err(TextFault::Memory) => out.append(b"memory")?,
    }
    Ok(out)
}

const KDB: &str =
    "DBD NAME=KDB,ACCESS=(PHIDAM)\nSEGM NAME=R,PARENT=0,BYTES=5,RULES=(,LAST),DSGROUP=A\nFIELD NAME=(K,SEQ,U),BYTES=3,START=1,TYPE=C\nFIELD NAME=V,BYTES=2,START=4,TYPE=C\nSEGM NAME=C,PARENT=R,BYTES=4,RULES=(,LAST),DSGROUP=A\nFIELD NAME=(CK,SEQ,M),BYTES=2,START=1,TYPE=C\nSEGM NAME=G,PARENT=C,BYTES=2,RULES=(,LAST),DSGROUP=A\nSEGM NAME=U,PARENT=R,BYTES=4,RULES=(,FIRST),DSGROUP=A\nFIELD NAME=(UK,SEQ,M),BYTES=2,START=1,TYPE=C\nDBDGEN\nFINISH\nEND\nblocks = 40\n";

const KDB_SAYS: &str =
    "DBD KDB PHIDAM 1 1\nSEGM 2 R 0 5 LAST  A\nFIELD 3 K 3 1 1\nFIELD 4 V 2 4 0\nSEGM 5 C R 4 LAST  A\nFIELD 6 CK 2 1 2\nSEGM 7 G C 2 LAST  A\nSEGM 8 U R 4 FIRST A\nFIELD 9 UK 2 1 2\nleft 12";

const KXDB: &str =
    "DBD NAME=KXDB,ACCESS=(PHIDAM)\nSEGM NAME=R,PARENT=0,BYTES=5,RULES=(,LAST),DSGROUP=A\nFIELD NAME=(K,SEQ,U),BYTES=3,START=1,TYPE=C\nFIELD NAME=V,BYTES=2,START=4,TYPE=C\nLCHILD NAME=(VX,VDB),PTR=INDX\nXDFLD NAME=XV,SEGMENT=R,SRCH=(V)\nDBDGEN\nFINISH\nEND\n";

const KXDB_SAYS: &str =
    "DBD KXDB PHIDAM 1 1\nSEGM 2 R 0 5 LAST  A\nFIELD 3 K 3 1 1\nFIELD 4 V 2 4 0\nXDFLD 5 VX VDB XV R R (V ) ()\nleft 0";

const HDB: &str =
    "DBD NAME=HDB,ACCESS=(PHDAM,OSAM),RMNAME=(DFSHDC40,2,2)\nSEGM NAME=R,BYTES=3\nFIELD NAME=(K,SEQ,U),BYTES=3,START=1\nDBDGEN\nFINISH\nEND\n";

const HDB_SAYS: &str = "DBD HDB PHDAM  DFSHDC40 2 2\nSEGM 2 R 0 3 LAST  A\nFIELD 3 K 3 1 1\nleft 0";

const ORDERDB: &str =
    "DBD NAME=ORDERDB,ACCESS=(PHIDAM,VSAM)\nSEGM NAME=CUSTOMER,PARENT=0,BYTES=40\nFIELD NAME=(CUSTNO,SEQ,U),BYTES=6,START=1,TYPE=C\nFIELD NAME=PHONE,BYTES=10,START=7,TYPE=C\nLCHILD NAME=(PHONEX,PHONEDB),PTR=INDX\nXDFLD NAME=XPHONE,SRCH=PHONE\nSEGM NAME=ORDER,PARENT=((CUSTOMER,SNGL)),BYTES=20,DSGROUP=B\nFIELD NAME=(ORDNO,SEQ,U),BYTES=6,START=1,TYPE=C\nSEGM NAME=LINE,PARENT=ORDER,BYTES=16\nSEGM NAME=PAYMENT,PARENT=CUSTOMER,BYTES=12,RULES=(,FIRST)\nFIELD NAME=(PAYDATE,SEQ,M),BYTES=8,START=1,TYPE=C\nDBDGEN\nFINISH\nEND\n";

const ORDERDB_SAYS: &str =
    "DBD ORDERDB PHIDAM 1 1\nSEGM 2 CUSTOMER 0 40 LAST  A\nFIELD 3 CUSTNO 6 1 1\nFIELD 4 PHONE 10 7 0\nSEGM 7 ORDER CUSTOMER 20 LAST  B\nFIELD 8 ORDNO 6 1 1\nSEGM 9 LINE ORDER 16 LAST  A\nSEGM 10 PAYMENT CUSTOMER 12 FIRST A\nFIELD 11 PAYDATE 8 1 2\nXDFLD 5 PHONEX PHONEDB XPHONE CUSTOMER CUSTOMER (PHONE ) ()\nleft 0";

#[test]
fn texts_say_their_definitions(rt: HostRuntime) -> Result<(), Fail> {
    for (text, says) in [
        (KDB, KDB_SAYS),
        (KXDB, KXDB_SAYS),
        (HDB, HDB_SAYS),
        (ORDERDB, ORDERDB_SAYS),
        // labels, lower case, notes, blank lines, CR LF, statements that are passed over
        (
            "* a note\t\r\n\r\n   \r\n  title 'it''s'\r\nlabel dbd name=d,access=phdam  a comment\r\n print nogen\nDATASET DD1=X,DD1=Y\nS1 segm name=r,bytes=(0007)\n dataset\n space 3\n eject\ndbdgen\nend\r\nrest",
            "DBD D PHDAM  1 1\nSEGM 8 R 0 7 LAST  A\nleft 4",
        ),
        // a trailing comma, with a comment behind it, a note between, and blanks before what follows
        (
            "DBD NAME=D,   the name\n* a note\n\n     ACCESS=(PHIDAM,  the method\n     VSAM)\nSEGM NAME=R,BYTES=7\nDBDGEN\nEND",
            "DBD D PHIDAM 1 1\nSEGM 6 R 0 7 LAST  A\nleft 0",
        ),
        // column 72 goes on, in the middle of an operand and of a comment; what is behind it isn't read
        (
            "DBD NAME=D,ACCESS=PHIDAM   a comment that goes on                      X\x01\n   with words that are no operands,\nSEGM NAME=LOOOOOOO,BYTES=7,FREQ=111111111111111111111111111111,PTR=TWINX00000000\n    BWD,PARENT=R\nDBDGEN\nEND",
            "DBD D PHIDAM 1 1\nSEGM 3 LOOOOOOO R 7 LAST  A\nleft 0",
        ),
    ] {
        assert_eq!(rt;
            said(&rt, text.as_bytes())?.as_slice(),
            says.as_bytes(),
            "{text}"
        );
    }
    Ok(())
}

/// What a definition with these statements says, behind a DBD and a SEGM on one line each.
fn said_of(rt: &HostRuntime, head: &str, statements: &str) -> Result<Bytes, Fail> {
    let mut text = Bytes::from_slice(rt.alloc(), head.as_bytes())?;
    text.append(statements.as_bytes())?;
    text.append(b"\nDBDGEN\nEND\n")?;
    said(rt, text.as_slice())
}

#[test]
fn operands_are_read_by_their_forms(rt: HostRuntime) -> Result<(), Fail> {
    let head = "DBD NAME=D,ACCESS=PHIDAM\nSEGM NAME=R,BYTES=9\n";
    for (statement, says) in [
        ("SEGM NAME=S,BYTES=1,PARENT=R", "SEGM 3 S R 1 LAST  A"),
        (
            "SEGM NAME=S,BYTES=1,PARENT=(R,SNGL)",
            "SEGM 3 S R 1 LAST  A",
        ),
        (
            "SEGM NAME=S,BYTES=1,PARENT=((R,DBLE))",
            "SEGM 3 S R 1 LAST  A",
        ),
        ("SEGM NAME=S,BYTES=1,PARENT=0", "SEGM 3 S 0 1 LAST  A"),
        ("SEGM NAME=S,BYTES=(1)", "SEGM 3 S 0 1 LAST  A"),
        (
            "SEGM NAME=S,BYTES=1,RULES=(LLL,FIRST)",
            "SEGM 3 S 0 1 FIRST A",
        ),
        ("SEGM NAME=S,BYTES=1,RULES=(PLV,)", "SEGM 3 S 0 1 LAST  A"),
        ("SEGM NAME=S,BYTES=1,RULES=(,)", "SEGM 3 S 0 1 LAST  A"),
        ("SEGM NAME=S,BYTES=1,RULES=FIRST", "SEGM 3 S 0 1 LAST  A"),
        ("SEGM NAME=S,BYTES=1,RULES=(LLL)", "SEGM 3 S 0 1 LAST  A"),
        (
            "SEGM NAME=S,BYTES=1,DSGROUP=k,PTR=T,POINTER=(T,TB),FREQ=.5",
            "SEGM 3 S 0 1 LAST  K",
        ),
        (
            "FIELD NAME=F,BYTES=4294967295,START=0,TYPE=P",
            "FIELD 3 F 4294967295 0 0",
        ),
        ("FIELD NAME=(F,SEQ),BYTES=1,START=2", "FIELD 3 F 1 2 1"),
        ("FIELD NAME=(F,SEQ,U),BYTES=1,START=2", "FIELD 3 F 1 2 1"),
        ("FIELD NAME=(F,SEQ,M),BYTES=1,START=2", "FIELD 3 F 1 2 2"),
        ("FIELD NAME=/ck1,BYTES=1,START=2", "FIELD 3 /CK1 1 2 0"),
    ] {
        let whole = format!(in rt.alloc();
            "DBD D PHIDAM 1 1\nSEGM 2 R 0 9 LAST  A\n{says}\nleft 0"
        )?;
        assert_eq!(rt;
            said_of(&rt, head, statement)?.as_slice(),
            whole.as_bytes(),
            "{statement}"
        );
    }
    for (statements, says) in [
        (
            "LCHILD NAME=(X,Y),POINTER=INDX\nXDFLD NAME=Z,SRCH=A",
            "XDFLD 3 X Y Z R R (A ) ()",
        ),
        (
            "LCHILD NAME=(X,Y),PTR=INDX\nDATASET\nXDFLD NAME=Z,SEGMENT=S,SRCH=(A,B,C,D,E),SUBSEQ=/CKA",
            "XDFLD 3 X Y Z R S (A B C D E ) (/CKA )",
        ),
        (
            "LCHILD NAME=(X,Y),PTR=INDX\nXDFLD NAME=Z,SRCH=/CK,SUBSEQ=(/CK1,/CK2)",
            "XDFLD 3 X Y Z R R (/CK ) (/CK1 /CK2 )",
        ),
    ] {
        let whole = format!(in rt.alloc();
            "DBD D PHIDAM 1 1\nSEGM 2 R 0 9 LAST  A\n{says}\nleft 0"
        )?;
        assert_eq!(rt;
            said_of(&rt, head, statements)?.as_slice(),
            whole.as_bytes(),
            "{statements}"
        );
    }
    for (dbd, says) in [
        ("NAME=D,ACCESS=(PHDAM),RMNAME=(M)", "PHDAM  M 1 1"),
        (
            "NAME=D,ACCESS=(PHDAM,VSAM),RMNAME=(M,5),VERSION='a,b c",
            "PHDAM  M 5 1",
        ),
        ("NAME=D,ACCESS=PHDAM,RMNAME=(M,,2)", "PHDAM  M 1 2"),
        ("NAME=D,ACCESS=PHDAM,RMNAME=(M,7,2,,9)", "PHDAM  M 7 2"),
        ("NAME=D,ACCESS=PHIDAM", "PHIDAM 1 1"),
    ] {
        let head = format!(in rt.alloc(); "DBD {dbd}\n")?;
        let whole = format!(in rt.alloc(); "DBD D {says}\nSEGM 2 R 0 9 LAST  A\nleft 0")?;
        assert_eq!(rt;
            said_of(&rt, head.as_str(), "SEGM NAME=R,BYTES=9")?.as_slice(),
            whole.as_bytes(),
            "{dbd}"
        );
    }
    Ok(())
}

#[test]
fn the_first_line_that_breaks_a_rule_is_said(rt: HostRuntime) -> Result<(), Fail> {
    for (text, says) in [
        ("", "rule 19 line 1"),
        ("* a note", "rule 19 line 2"),
        ("DBD NAME=D,ACCESS=PHIDAM,\n", "rule 15 line 1"),
        ("DBD NAME=D,\n\n", "rule 15 line 1"),
        (
            "DBD NAME=D,ACCESS=PHIDAM\nSEGM NAME=R,BYTES=9\nDBDGEN\n",
            "rule 19 line 4",
        ),
        ("DBD NAME=D\x01,ACCESS=X", "rule 13 line 1"),
        ("DBD NAME=D,\nACCESS=PHIDAM,X=\x01", "rule 15 line 1"),
        ("DBD NAME=D,\nACCESS=PHIDAM \t", "rule 13 line 2"),
        ("DBX NAME=D,EXIT=X", "rule 14 line 1"),
        ("LABEL", "rule 14 line 1"),
        ("DATASET", "rule 14 line 1"),
        ("SEGM NAME=R,BYTES=1", "rule 14 line 1"),
        ("DBD NAME=D,ACCESS=PHIDAM\nDBDGEN", "rule 14 line 2"),
        (
            "DBD NAME=D,ACCESS=PHIDAM\nSEGM NAME=R,BYTES=9\nXDFLD",
            "rule 14 line 3",
        ),
        (
            "DBD NAME=D,ACCESS=PHIDAM\nSEGM NAME=R,BYTES=9\nLCHILD NAME=(A,B),PTR=INDX\nFIELD",
            "rule 14 line 4",
        ),
        (
            "DBD NAME=D,ACCESS=PHIDAM\nSEGM NAME=R,BYTES=9\nDBDGEN\nDATASET",
            "rule 14 line 4",
        ),
        (
            "DBD NAME=D,ACCESS=PHIDAM\nSEGM NAME=R,BYTES=9\nDBDGEN\nFINISH\nFINISH",
            "rule 14 line 5",
        ),
    ] {
        assert_eq!(rt;
            said(&rt, text.as_bytes())?.as_slice(),
            says.as_bytes(),
            "{text}"
        );
    }
    Ok(())
}

#[test]
fn each_operand_breaks_its_rule(rt: HostRuntime) -> Result<(), Fail> {
    let head = "DBD NAME=D,ACCESS=PHIDAM\nSEGM NAME=R,BYTES=9\n";
    for (rule, statement) in [
        ("15", "SEGM NAME=S,BYTES=1,NAME=S"),
        ("15", "SEGM NAME=S,,BYTES=1"),
        ("15", "SEGM NAME=S,BYTES=1,X=1"),
        ("15", "SEGM NAME=S,BYTES=1,FREQ=1,FREQ=1"),
        ("15", "LCHILD NAME=(A,B),PTR=INDX,POINTER=INDX"),
        ("15", "DBDGEN X"),
        ("16", "SEGM NAME=S"),
        ("16", "SEGM BYTES=1"),
        ("16", "FIELD NAME=F,BYTES=1"),
        ("16", "FIELD NAME=F,START=1"),
        ("16", "FIELD BYTES=1,START=1"),
        ("16", "LCHILD NAME=(A,B)"),
        ("16", "LCHILD PTR=INDX"),
        ("17", "SEGM NAME,BYTES=1"),
        ("17", "SEGM NAME=,BYTES=1"),
        ("17", "SEGM NAME=(S),BYTES=1"),
        ("17", "SEGM NAME=S,BYTES=4294967296"),
        ("17", "SEGM NAME=S,BYTES=1,FREQ"),
        ("17", "SEGM NAME=S,BYTES=1,PARENT=00"),
        ("17", "SEGM NAME=S,BYTES=1,PARENT=(R)"),
        ("17", "SEGM NAME=S,BYTES=1,PARENT=((R))"),
        ("17", "SEGM NAME=S,BYTES=1,PARENT=((R),(L,VIRTUAL))"),
        ("17", "SEGM NAME=S,BYTES=1,RULES=()"),
        ("17", "SEGM NAME=S,BYTES=1,RULES=(L1,LAST)"),
        ("17", "SEGM NAME=S,BYTES=1,RULES=(L,NEXT)"),
        ("17", "SEGM NAME=S,BYTES=1,DSGROUP=AB"),
        ("17", "FIELD NAME=(K),BYTES=1,START=1"),
        ("17", "FIELD NAME=(K,SEQ,X),BYTES=1,START=1"),
        ("17", "FIELD NAME=K,BYTES=(3),START=1"),
        ("17", "FIELD NAME=/CK123456,BYTES=3,START=1"),
        ("17", "LCHILD NAME=A,PTR=INDX"),
        ("17", "LCHILD NAME=(A,B),PTR=1"),
        ("18", "SEGM NAME=S,BYTES=(2,1)"),
        (
            "18",
            "SEGM NAME=S,BYTES=1,PARENT=((R,SNGL),(L,VIRTUAL,LDB))",
        ),
        ("18", "SEGM NAME=S,BYTES=1,PARENT=((R),(L,PHYSICAL,LDB))"),
        ("18", "SEGM NAME=S,BYTES=1,RULES=(LLL,HERE)"),
        ("18", "SEGM NAME=S,BYTES=1,RULES=HERE"),
        ("18", "SEGM NAME=S,BYTES=1,COMPRTN=X"),
        ("18", "SEGM NAME=S,BYTES=1,EXIT"),
        ("18", "LCHILD NAME=(A,B),PTR=NONE"),
        ("18", "FIELD NAME=/SX1,BYTES=1,START=1"),
        ("18", "FIELD NAME=F,BYTES=1,START=1,NULLVAL=ZERO"),
        ("18", "DBDGEN PSNAME=X"),
        // 18 before 15 before 17 before 16
        ("18", "SEGM NAME=S,NAME=S,BYTES=(2,1)"),
        ("15", "SEGM NAME=1,NAME=S,BYTES=2"),
        ("15", "SEGM NAME=1,X"),
        ("17", "SEGM NAME=1"),
    ] {
        let says = format!(in rt.alloc(); "rule {rule} line 3")?;
        assert_eq!(rt;
            said_of(&rt, head, statement)?.as_slice(),
            says.as_bytes(),
            "{statement}"
        );
    }
    let head = "DBD NAME=D,ACCESS=PHIDAM\nSEGM NAME=R,BYTES=9\nLCHILD NAME=(A,B),PTR=INDX\n";
    for (rule, statement) in [
        ("16", "XDFLD NAME=X"),
        ("16", "XDFLD SRCH=F"),
        ("17", "XDFLD NAME=X,SRCH=(A,B,C,D,E,F)"),
        ("17", "XDFLD NAME=X,SRCH=()"),
        ("17", "XDFLD NAME=X,SRCH=F,SEGMENT=(R)"),
        ("18", "XDFLD NAME=X,SRCH=(F,/SX)"),
        ("18", "XDFLD NAME=X,SRCH=F,DDATA=G"),
        ("18", "XDFLD NAME=X,SRCH=F,CONST=C"),
        ("18", "XDFLD NAME=X,SRCH=F,EXTRTN=E"),
    ] {
        let says = format!(in rt.alloc(); "rule {rule} line 4")?;
        assert_eq!(rt;
            said_of(&rt, head, statement)?.as_slice(),
            says.as_bytes(),
            "{statement}"
        );
    }
    for (rule, dbd) in [
        ("16", "NAME=D"),
        ("16", "ACCESS=PHDAM"),
        ("17", "NAME=D,ACCESS=()"),
        ("17", "NAME=D,ACCESS=PHDAM,RMNAME=M"),
        ("17", "NAME=D,ACCESS=PHDAM,RMNAME=(M,X)"),
        ("18", "NAME=D,ACCESS=HDAM"),
        ("18", "NAME=D,ACCESS=(PHDAM,TSAM)"),
    ] {
        let text = format!(in rt.alloc(); "DBD {dbd}\n")?;
        let says = format!(in rt.alloc(); "rule {rule} line 1")?;
        assert_eq!(rt;
            said(&rt, text.as_bytes())?.as_slice(),
            says.as_bytes(),
            "{dbd}"
        );
    }
    Ok(())
}
