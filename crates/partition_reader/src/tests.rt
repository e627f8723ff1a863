use crate::read_partitions;
use hal_base::Bytes;
use hal_schema::{RawPart, TextFault};
use std::test::Fail;

fn put(rt: &HostRuntime, out: &mut Bytes, text: &str, number: u32) -> Result<(), Fail> {
    let digits = format!(in rt.alloc(); "{text}{number}")?;
    out.append(digits.as_bytes())?;
    Ok(())
}

fn put_part(rt: &HostRuntime, out: &mut Bytes, part: &RawPart) -> Result<(), Fail> {
    put(rt, out, "; ", part.place)?;
    out.append(b" ")?;
    out.append(part.name.as_slice())?;
    put(rt, out, " ", part.number)?;
    out.append(b" ")?;
    out.append(part.high.as_slice())?;
    match part.anchors {
        Some(anchors) => put(rt, out, " ", anchors)?,
        None => out.append(b" -")?,
    }
    put(rt, out, " ", part.fbff)?;
    put(rt, out, " ", part.fspf)
}

/// What a file says: its blocks, and of each partition place, name, number, high key, anchors, fbff and fspf; or the
/// rule and the place.
fn said(rt: &HostRuntime, text: &[u8]) -> Result<Bytes, Fail> {
    let mut out = Bytes::new(rt.alloc());
    match read_partitions(rt.alloc(), text) {
        Ok(file) => {
            put(rt, &mut out, "", file.blocks)?;
            for part in file.parts.as_slice() {
                put_part(rt, &mut out, part)?;
            }
        }
        Err(TextFault::Rule { rule, line }) => {
            put(rt, &mut out, "rule ", rule as u32)?;
            put(rt, &mut out, " at ", line)?;
        }
        Err(TextFault::Memory) => out.append(b"memory")?,
    }
    Ok(out)
}

#[test]
fn files_say_their_partitions(rt: HostRuntime) -> Result<(), Fail> {
    for (says, text) in [
        ("40", "blocks = 40"),
        ("40", "blocks = 40\npartition = []"),
        ("4294967295", "blocks = 0xFFFFFFFF"),
        (
            "40; 1 P1 1 500 - 0 0; 2 P2 2 999 - 0 0",
            "blocks = 40\n[[partition]]\nname = \"P1\"\nnumber = 1\nhigh = \"500\"\n[[partition]]\nname = \"P2\"\nnumber = 2\nhigh = \"999\"\n",
        ),
        (
            "7; 1 P2 0 9 8 10 5; 2 P@1 4 A - 0 0",
            "blocks = 7\npartition = [{high = \"9\", fspf = 5, fbff = 10, anchors = 8, name = \"p2\", number = 0},\n{name = 'p@1', high = \"X'41'\", number = 4}]",
        ),
        (
            "1; 1 P 1 jK - 0 0; 2 P 1  - 0 0; 3 P 1 x'41' - 0 0",
            "blocks = 1\n[[partition]]\nname = \"P\"\nnumber = 1\nhigh = \"X'6a4B'\"\n[[partition]]\nname = \"P\"\nnumber = 1\nhigh = \"\"\n[[partition]]\nname = \"P\"\nnumber = 1\nhigh = \"x'41'\"",
        ),
    ] {
        assert_eq!(rt;
            said(&rt, text.as_bytes())?.as_slice(),
            says.as_bytes(),
            "{text}"
        );
    }
    Ok(())
}

#[test]
fn the_file_itself_is_judged_first(rt: HostRuntime) -> Result<(), Fail> {
    for (rule, text) in [
        ("21", "blocks"),
        ("21", "blocks = 1\nblocks = 2"),
        ("21", "blocks = 1\n[partition]\n[[partition]]"),
        ("22", ""),
        ("22", "[[partition]]\nx = 1"),
        ("22", "block = 1"),
        ("23", "blocks = -1"),
        ("23", "blocks = 4294967296"),
        ("23", "blocks = 1.0"),
        ("23", "blocks = \"1\""),
        ("23", "blocks = true"),
        ("23", "blocks = 2026-01-01"),
        ("23", "blocks = 1\npartition = 1"),
        ("23", "blocks = 1\nx = 1\npartition = [1]"),
        ("23", "blocks = 1\npartition = [{}, 1]"),
        ("23", "blocks = 1\n[partition]"),
        ("24", "blocks = 1\nBlocks = 2\n[[partition]]"),
    ] {
        let says = format!(in rt.alloc(); "rule {rule} at 0")?;
        assert_eq!(rt;
            said(&rt, text.as_bytes())?.as_slice(),
            says.as_bytes(),
            "{text}"
        );
    }
    assert_eq!(rt;
        said(&rt, b"# \xFF\nblocks = 1")?.as_slice(),
        b"rule 21 at 0".as_slice()
    );
    Ok(())
}

#[test]
fn each_table_is_judged_in_the_order_of_the_rules(rt: HostRuntime) -> Result<(), Fail> {
    let head = "blocks = 1\n[[partition]]\nname = \"P\"\nnumber = 1\nhigh = \"1\"\n[[partition]]\n";
    for (rule, table) in [
        ("22", "number = 1\nhigh = \"1\"\nx = 1"),
        ("22", "name = \"P\"\nhigh = 1"),
        ("22", "name = \"P\"\nnumber = \"x\""),
        ("23", "name = \"\"\nnumber = 1\nhigh = \"1\""),
        ("23", "name = \"/CK1\"\nnumber = 1\nhigh = \"1\""),
        ("23", "name = \"123456789\"\nnumber = 1\nhigh = \"1\""),
        ("23", "name = 1\nnumber = 1\nhigh = \"1\""),
        ("23", "name = \"P\"\nnumber = 1.5\nhigh = \"1\""),
        ("23", "name = \"P\"\nnumber = 1\nhigh = 1"),
        ("23", "name = \"P\"\nnumber = 1\nhigh = \"X'4'\""),
        ("23", "name = \"P\"\nnumber = 1\nhigh = \"X''\""),
        ("23", "name = \"P\"\nnumber = 1\nhigh = \"X'41\""),
        ("23", "name = \"P\"\nnumber = 1\nhigh = \"X'4G'\""),
        ("23", "name = \"P\"\nnumber = 1\nhigh = \"\\t\""),
        ("23", "name = \"P\"\nnumber = 1\nhigh = \"\u{e9}\""),
        ("23", "name = \"P\"\nnumber = 1\nhigh = \"1\"\nanchors = -1"),
        (
            "23",
            "name = \"P\"\nnumber = 1\nhigh = \"1\"\nfbff = [1]\nx = 1",
        ),
        (
            "23",
            "name = \"P\"\nnumber = 1\nhigh = \"1\"\nfspf = 4294967296",
        ),
        ("24", "name = \"P\"\nnumber = 1\nhigh = \"1\"\nFSPF = 1"),
        (
            "24",
            "name = \"P\"\nnumber = 1\nhigh = \"1\"\nx.y = 1\n[[partition]]",
        ),
    ] {
        let text = format!(in rt.alloc(); "{head}{table}")?;
        let says = format!(in rt.alloc(); "rule {rule} at 2")?;
        assert_eq!(rt;
            said(&rt, text.as_bytes())?.as_slice(),
            says.as_bytes(),
            "{table}"
        );
    }
    Ok(())
}
