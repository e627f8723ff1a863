use crate::{print_dbd, print_partitions, read_dbd, read_partitions};
use hal_base::Bytes;
use hal_schema::{RawSchema, Schema};
use std::test::Fail;

/// The schema that a DBD text and the partition file behind its END say.
fn built(rt: &HostRuntime, text: &[u8]) -> Result<Schema, Fail> {
    if text.len() >= 4_294_967_295 {
        return Err(Fail::from("a short text"));
    }
    let (dbd, at) = read_dbd(rt.alloc(), text)?;
    let behind = text.get(at..).unwrap_or(&[]);
    let parts = read_partitions(rt.alloc(), behind)?;
    if dbd.types.is_empty() {
        return Err(Fail::from("a type"));
    }
    if !dbd.is_named() {
        return Err(Fail::from("plain names"));
    }
    if !parts.are_named() {
        return Err(Fail::from("plain names of partitions"));
    }
    Ok(Schema::build(rt.alloc(), RawSchema { dbd, parts })?)
}

/// Both canonical texts, one behind the other.
fn printed(rt: &HostRuntime, schema: &Schema) -> Result<Bytes, Fail> {
    let mut text = print_dbd(rt.alloc(), schema)?;
    let parts = print_partitions(rt.alloc(), schema)?;
    text.append(parts.as_slice())?;
    Ok(text)
}

/// What a definition prints as, unless its schema's copy or the printed text itself print otherwise: then that.
fn prints(rt: &HostRuntime, text: &str) -> Result<Bytes, Fail> {
    let schema = built(rt, text.as_bytes())?;
    let first = printed(rt, &schema)?;
    let copy = printed(rt, &schema.copy(rt.alloc())?)?;
    if copy != first {
        return Ok(copy);
    }
    let again = built(rt, first.as_slice())?;
    printed(rt, &again)
}

const KDB: &str =
    "DBD NAME=KDB,ACCESS=(PHIDAM)\nSEGM NAME=R,PARENT=0,BYTES=5,RULES=(,LAST),DSGROUP=A\nFIELD NAME=(K,SEQ,U),BYTES=3,START=1,TYPE=C\nFIELD NAME=V,BYTES=2,START=4,TYPE=C\nSEGM NAME=C,PARENT=R,BYTES=4,RULES=(,LAST),DSGROUP=A\nFIELD NAME=(CK,SEQ,M),BYTES=2,START=1,TYPE=C\nSEGM NAME=G,PARENT=C,BYTES=2,RULES=(,LAST),DSGROUP=A\nSEGM NAME=U,PARENT=R,BYTES=4,RULES=(,FIRST),DSGROUP=A\nFIELD NAME=(UK,SEQ,M),BYTES=2,START=1,TYPE=C\nDBDGEN\nFINISH\nEND\n";

const KDB_PARTS: &str =
    "blocks = 40\n[[partition]]\nname = \"P1\"\nnumber = 1\nhigh = \"500\"\nanchors = 1\nfbff = 0\nfspf = 0\n[[partition]]\nname = \"P2\"\nnumber = 2\nhigh = \"999\"\nanchors = 1\nfbff = 0\nfspf = 0\n";

#[test]
fn kdb_prints_as_itself(rt: HostRuntime) -> Result<(), Fail> {
    let text = format!(in rt.alloc();
        "{KDB}blocks = 40\n[[partition]]\nname = \"P2\"\nnumber = 2\nhigh = \"999\"\n[[partition]]\nname = \"p1\"\nnumber = 1\nhigh = \"X'353030'\"\n"
    )?;
    let canonical = format!(in rt.alloc(); "{KDB}{KDB_PARTS}")?;
    assert_eq!(rt;
        prints(&rt, text.as_str())?.as_slice(),
        canonical.as_bytes()
    );
    Ok(())
}

#[test]
fn each_text_of_kdb_prints_alone(rt: HostRuntime) -> Result<(), Fail> {
    let text = format!(in rt.alloc(); "{KDB}{KDB_PARTS}")?;
    let schema = built(&rt, text.as_bytes())?;
    let dbd = print_dbd(rt.alloc(), &schema)?;
    let parts = print_partitions(rt.alloc(), &schema)?;
    assert_eq!(rt; dbd.as_slice(), KDB.as_bytes());
    assert_eq!(rt; parts.as_slice(), KDB_PARTS.as_bytes());
    Ok(())
}

#[test]
fn an_index_stands_behind_the_fields_of_its_target(rt: HostRuntime) -> Result<(), Fail> {
    let head =
        "DBD NAME=KXDB,ACCESS=(PHIDAM)\nSEGM NAME=R,PARENT=0,BYTES=5,RULES=(,LAST),DSGROUP=A\n";
    let field = "FIELD NAME=(K,SEQ,U),BYTES=3,START=1,TYPE=C\n";
    let index = "LCHILD NAME=(VX,VDB),PTR=INDX\nXDFLD NAME=XV,SEGMENT=R,SRCH=(V)\n";
    let value = "FIELD NAME=V,BYTES=2,START=4,TYPE=C\n";
    let end = "DBDGEN\nFINISH\nEND\n";
    let text = format!(in rt.alloc(); "{head}{field}{index}{value}{end}{KDB_PARTS}")?;
    let canonical = format!(in rt.alloc(); "{head}{field}{value}{index}{end}{KDB_PARTS}")?;
    assert_eq!(rt;
        prints(&rt, text.as_str())?.as_slice(),
        canonical.as_bytes()
    );
    Ok(())
}

#[test]
fn a_randomizer_and_hex_keys_are_printed(rt: HostRuntime) -> Result<(), Fail> {
    let text =
        "DBD NAME=HDB,ACCESS=(PHDAM,OSAM),RMNAME=(DFSHDC40,2,2)\nSEGM NAME=R,BYTES=3\nFIELD NAME=(K,SEQ,U),BYTES=3,START=1\nDBDGEN\nFINISH\nEND\nblocks = 40\n[[partition]]\nname = \"P1\"\nnumber = 1\nhigh = \"ZZ-\"\n";
    let canonical =
        "DBD NAME=HDB,ACCESS=(PHDAM),RMNAME=(DFSHDC40,2,2)\nSEGM NAME=R,PARENT=0,BYTES=3,RULES=(,LAST),DSGROUP=A\nFIELD NAME=(K,SEQ,U),BYTES=3,START=1,TYPE=C\nDBDGEN\nFINISH\nEND\nblocks = 40\n[[partition]]\nname = \"P1\"\nnumber = 1\nhigh = \"X'5A5A2D'\"\nanchors = 4\nfbff = 0\nfspf = 0\n";
    assert_eq!(rt; prints(&rt, text)?.as_slice(), canonical.as_bytes());
    Ok(())
}

#[test]
fn an_order_database_prints_with_its_defaults(rt: HostRuntime) -> Result<(), Fail> {
    let text =
        "DBD NAME=ORDERDB,ACCESS=(PHIDAM,VSAM)\nSEGM NAME=CUSTOMER,PARENT=0,BYTES=40\nFIELD NAME=(CUSTNO,SEQ,U),BYTES=6,START=1,TYPE=C\nFIELD NAME=PHONE,BYTES=10,START=7,TYPE=C\nLCHILD NAME=(PHONEX,PHONEDB),PTR=INDX\nXDFLD NAME=XPHONE,SRCH=PHONE\nSEGM NAME=ORDER,PARENT=((CUSTOMER,SNGL)),BYTES=20,DSGROUP=B\nFIELD NAME=(ORDNO,SEQ,U),BYTES=6,START=1,TYPE=C\nSEGM NAME=LINE,PARENT=ORDER,BYTES=16\nSEGM NAME=PAYMENT,PARENT=CUSTOMER,BYTES=12,RULES=(,FIRST)\nFIELD NAME=(PAYDATE,SEQ,M),BYTES=8,START=1,TYPE=C\nDBDGEN\nFINISH\nEND\nblocks = 200\n[[partition]]\nname = \"P1\"\nnumber = 1\nhigh = \"C99999\"\n";
    let canonical =
        "DBD NAME=ORDERDB,ACCESS=(PHIDAM)\nSEGM NAME=CUSTOMER,PARENT=0,BYTES=40,RULES=(,LAST),DSGROUP=A\nFIELD NAME=(CUSTNO,SEQ,U),BYTES=6,START=1,TYPE=C\nFIELD NAME=PHONE,BYTES=10,START=7,TYPE=C\nLCHILD NAME=(PHONEX,PHONEDB),PTR=INDX\nXDFLD NAME=XPHONE,SEGMENT=CUSTOMER,SRCH=(PHONE)\nSEGM NAME=ORDER,PARENT=CUSTOMER,BYTES=20,RULES=(,LAST),DSGROUP=B\nFIELD NAME=(ORDNO,SEQ,U),BYTES=6,START=1,TYPE=C\nSEGM NAME=LINE,PARENT=ORDER,BYTES=16,RULES=(,LAST),DSGROUP=A\nSEGM NAME=PAYMENT,PARENT=CUSTOMER,BYTES=12,RULES=(,FIRST),DSGROUP=A\nFIELD NAME=(PAYDATE,SEQ,M),BYTES=8,START=1,TYPE=C\nDBDGEN\nFINISH\nEND\nblocks = 200\n[[partition]]\nname = \"P1\"\nnumber = 1\nhigh = \"C99999\"\nanchors = 1\nfbff = 0\nfspf = 0\n";
    assert_eq!(rt; prints(&rt, text)?.as_slice(), canonical.as_bytes());
    Ok(())
}

#[test]
fn long_statements_go_on_behind_a_blank(rt: HostRuntime) -> Result<(), Fail> {
    let canonical =
        "DBD NAME=DATABASE,ACCESS=(PHDAM),RMNAME=(MODULE42,4294967295,\n 4294967295)\nSEGM NAME=SEGMENT1,PARENT=0,BYTES=2000,RULES=(,FIRST),DSGROUP=A\nFIELD NAME=(FIELD001,SEQ,U),BYTES=100,START=1900,TYPE=C\nFIELD NAME=FIELD002,BYTES=100,START=101,TYPE=C\nLCHILD NAME=(INDEXED1,INDEXDB1),PTR=INDX\nXDFLD NAME=XDFIELD1,SEGMENT=SEGMENT2,SRCH=(FIELD004,FIELD005),\n SUBSEQ=(/CK00001,/CK00002,/CK00001)\nSEGM NAME=SEGMENT2,PARENT=SEGMENT1,BYTES=2000,RULES=(,FIRST),DSGROUP=A\nFIELD NAME=FIELD004,BYTES=10,START=101,TYPE=C\nFIELD NAME=FIELD005,BYTES=10,START=111,TYPE=C\nFIELD NAME=/CK00001,BYTES=50,START=1,TYPE=C\nFIELD NAME=/CK00002,BYTES=50,START=51,TYPE=C\nDBDGEN\nFINISH\nEND\nblocks = 65536\n[[partition]]\nname = \"PARTIT01\"\nnumber = 32767\nhigh = \"X'000000000000000000000000000000000000000000000000000000000000000000000000000000000000000000000000000000000000000000000000000000000000000000000000000000000000000000000000000000000000000000000000000000FF'\"\nanchors = 1000000\nfbff = 100\nfspf = 99\n";
    assert_eq!(rt; prints(&rt, canonical)?.as_slice(), canonical.as_bytes());
    Ok(())
}
