// The databases of the scripts, and scripts over them.
use crate::{Case, Desk, first_wrong};
use get_rows::schema_of;
use position_state::WalkFault;
use std::alloc::Global;

/// Two partitions; three levels; twins first and last.
pub const KDB: &str =
    "DBD NAME=KDB,ACCESS=(PHIDAM)\nSEGM NAME=R,PARENT=0,BYTES=5,RULES=(,LAST),DSGROUP=A\nFIELD NAME=(K,SEQ,U),BYTES=3,START=1,TYPE=C\nFIELD NAME=V,BYTES=2,START=4,TYPE=C\nSEGM NAME=C,PARENT=R,BYTES=4,RULES=(,LAST),DSGROUP=A\nFIELD NAME=(CK,SEQ,M),BYTES=2,START=1,TYPE=C\nSEGM NAME=G,PARENT=C,BYTES=2,RULES=(,LAST),DSGROUP=A\nSEGM NAME=U,PARENT=R,BYTES=4,RULES=(,FIRST),DSGROUP=A\nFIELD NAME=(UK,SEQ,M),BYTES=2,START=1,TYPE=C\nDBDGEN\nFINISH\nEND\n";

/// That with a secondary index.
pub const KXDB: &str =
    "DBD NAME=KXDB,ACCESS=(PHIDAM)\nSEGM NAME=R,PARENT=0,BYTES=5,RULES=(,LAST),DSGROUP=A\nFIELD NAME=(K,SEQ,U),BYTES=3,START=1,TYPE=C\nFIELD NAME=V,BYTES=2,START=4,TYPE=C\nLCHILD NAME=(VX,VDB),PTR=INDX\nXDFLD NAME=XV,SEGMENT=R,SRCH=(V)\nSEGM NAME=C,PARENT=R,BYTES=4,RULES=(,LAST),DSGROUP=A\nFIELD NAME=(CK,SEQ,M),BYTES=2,START=1,TYPE=C\nSEGM NAME=G,PARENT=C,BYTES=2,RULES=(,LAST),DSGROUP=A\nSEGM NAME=U,PARENT=R,BYTES=4,RULES=(,FIRST),DSGROUP=A\nFIELD NAME=(UK,SEQ,M),BYTES=2,START=1,TYPE=C\nDBDGEN\nFINISH\nEND\n";

/// A root and four types below it: one of unique keys, one of any, and two without a key, first and last.
pub const TWINS: &str =
    "DBD NAME=TWINS,ACCESS=(PHIDAM)\nSEGM NAME=R,PARENT=0,BYTES=3\nFIELD NAME=(K,SEQ,U),BYTES=3,START=1,TYPE=C\nSEGM NAME=A,PARENT=R,BYTES=4\nFIELD NAME=(AK,SEQ,U),BYTES=2,START=1,TYPE=C\nSEGM NAME=M,PARENT=R,BYTES=4,RULES=(,LAST)\nFIELD NAME=(MK,SEQ,M),BYTES=2,START=1,TYPE=C\nSEGM NAME=E,PARENT=R,BYTES=2,RULES=(,FIRST)\nSEGM NAME=L,PARENT=R,BYTES=2,RULES=(,LAST)\nDBDGEN\nFINISH\nEND\n";

pub const PARTS: &str =
    "blocks = 40\n[[partition]]\nname = \"P1\"\nnumber = 1\nhigh = \"500\"\n[[partition]]\nname = \"P2\"\nnumber = 2\nhigh = \"999\"\n";

/// An empty database of this definition, with so many free blocks.
pub fn empty(alloc: Global, dbd: &str, free: u32) -> Option<Desk> {
    Some(Desk::new(alloc, schema_of(alloc, dbd, PARTS)?, free))
}

/// The first line that isn't answered so, of scripts that go on one with what the other left: its script's place, and its
/// own. No script is the thousandth.
pub fn wrong_of(
    alloc: Global,
    dbd: &str,
    free: u32,
    scripts: &[&[Case]],
) -> Result<Option<(usize, usize)>, WalkFault> {
    let Some(mut desk) = empty(alloc, dbd, free) else {
        return Ok(Some((1_000, 0)));
    };
    for (place, script) in scripts.iter().enumerate() {
        if let Some(line) = first_wrong(&mut desk, script)? {
            return Ok(Some((place, line)));
        }
    }
    Ok(None)
}
