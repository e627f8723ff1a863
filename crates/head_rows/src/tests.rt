use crate::{Found, defined, read, schema_of};
use hal_base::{Bytes, List};
use hal_schema::Schema;
use std::alloc::Global;
use std::test::Fail;
use volume_head::WriteFault;

const KDB: &str = "DBD NAME=KDB,ACCESS=(PHIDAM,VSAM)
SEGM NAME=R,PARENT=0,BYTES=16
FIELD NAME=(K,SEQ,U),BYTES=3,START=1
SEGM NAME=C,PARENT=R,BYTES=8
FIELD NAME=(CK,SEQ,U),BYTES=2,START=1
DBDGEN
FINISH
END
";

const PARTS: &str = "blocks = 40
[[partition]]
name = \"P1\"
number = 1
high = \"500\"
[[partition]]
name = \"P2\"
number = 2
high = \"~~~\"
";

// The bytes of the volume: head, gate, one block of definition, one of control rows, forty of data.
const SIZE: usize = 44 * 4096;

fn kdb(alloc: Global) -> Result<Schema, Fail> {
    Ok(schema_of(alloc, KDB, PARTS).ok_or("a schema")?)
}

fn filled(alloc: Global, count: usize, byte: u8) -> Result<Bytes, Fail> {
    Ok(Bytes::from_vec(vec![in alloc; byte; count]?))
}

fn begins(image: &[u8], front: &[u8]) -> bool {
    match image.get(..front.len()) {
        Some(bytes) => bytes == front,
        None => false,
    }
}

#[test]
fn a_volume_is_read_back(rt: HostRuntime) -> Result<(), Fail> {
    let alloc = rt.alloc();
    let schema = kdb(alloc)?;
    let (result, site) = defined(alloc, Bytes::new(alloc), List::new(alloc), &schema);
    assert_eq!(rt; result, Ok(()));
    assert_eq!(rt; site.image().len(), SIZE);
    assert!(rt; begins(site.image(), b"HALDBV01\0\0\0\x28\0\0"));
    let image = Bytes::from_slice(alloc, site.image())?;
    assert_eq!(rt; read(alloc, image, &schema), Found::Same);
    Ok(())
}

#[test]
fn control_rows_say_idle_partitions(rt: HostRuntime) -> Result<(), Fail> {
    let alloc = rt.alloc();
    let schema = kdb(alloc)?;
    let (result, site) = defined(alloc, filled(alloc, 300_000, 7)?, List::new(alloc), &schema);
    assert_eq!(rt; result, Ok(()));
    assert_eq!(rt; site.image().len(), 300_000);
    for (place, row) in [(0, b"\0\x01\0\x01AI\0\0"), (1, b"\0\x02\0\x01AI\0\0")] {
        let from = 3 * 4096 + 128 * place;
        assert_eq!(rt;
            site.image().get(from..from + 8),
            Some(row.as_slice()),
            "{place}"
        );
    }
    assert_eq!(rt; site.image().get(SIZE - 1), Some(&0));
    assert_eq!(rt; site.image().get(SIZE), Some(&7));
    Ok(())
}

#[test]
fn a_marked_site_is_left_alone(rt: HostRuntime) -> Result<(), Fail> {
    let alloc = rt.alloc();
    let schema = kdb(alloc)?;
    let image = Bytes::from_slice(alloc, b"HALDBV01 and what else there is")?;
    let (result, site) = defined(alloc, image, List::new(alloc), &schema);
    assert_eq!(rt; result, Err(WriteFault::Holds));
    assert_eq!(rt; site.image(), b"HALDBV01 and what else there is".as_slice());
    let near = Bytes::from_slice(alloc, b"HALDBV02")?;
    let (result, site) = defined(alloc, near, List::new(alloc), &schema);
    assert_eq!(rt; result, Ok(()));
    assert_eq!(rt; site.image().len(), SIZE);
    Ok(())
}

#[test]
fn each_call_of_the_site_may_fail(rt: HostRuntime) -> Result<(), Fail> {
    let alloc = rt.alloc();
    let schema = kdb(alloc)?;
    let (_, site) = defined(alloc, Bytes::new(alloc), List::new(alloc), &schema);
    let calls = site.calls();
    assert!(rt; calls > 40, "{calls}");
    for call in 1..=calls {
        let mut failing = List::new(alloc);
        failing.push(call)?;
        let (result, _) = defined(alloc, Bytes::new(alloc), failing, &schema);
        assert_eq!(rt; result, Err(WriteFault::DiskFault), "{call}");
    }
    Ok(())
}

#[test]
fn a_stop_leaves_no_mark_or_the_whole_volume(rt: HostRuntime) -> Result<(), Fail> {
    let alloc = rt.alloc();
    let schema = kdb(alloc)?;
    let (result, site) = defined(alloc, filled(alloc, 8, 3)?, List::new(alloc), &schema);
    assert_eq!(rt; result, Ok(()));
    for moment in 0..=site.calls() {
        for (kept, torn) in [(true, 0), (false, 0), (false, 1), (false, 255)] {
            let image = site.stopped(moment, kept, torn)?;
            let marked = begins(image.as_slice(), b"HALDBV01");
            let found = read(alloc, image, &schema);
            let wanted = if marked {
                Found::Same
            } else {
                Found::NotAVolume
            };
            assert_eq!(rt; found, wanted, "{moment} {kept} {torn}");
        }
    }
    Ok(())
}

#[test]
fn a_changed_front_is_damaged(rt: HostRuntime) -> Result<(), Fail> {
    let alloc = rt.alloc();
    let schema = kdb(alloc)?;
    let (_, site) = defined(alloc, Bytes::new(alloc), List::new(alloc), &schema);
    for (at, wanted) in [
        (0, Found::NotAVolume),
        (7, Found::NotAVolume),
        (11, Found::Damaged),
        (12, Found::Damaged),
        (15, Found::Damaged),
        (17, Found::Damaged),
        (18, Found::Damaged),
        (4095, Found::Damaged),
        (4096, Found::Same),
        (8192, Found::Damaged),
        (12_287, Found::Damaged),
        (12_288, Found::Same),
    ] {
        let mut image = Vec::new(alloc);
        image.extend_from_slice(site.image())?;
        if let Some(byte) = image.get_mut(at) {
            *byte = byte.wrapping_add(1);
        }
        let found = read(alloc, Bytes::from_vec(image), &schema);
        assert_eq!(rt; found, wanted, "{at}");
    }
    assert_eq!(rt; read(alloc, Bytes::new(alloc), &schema), Found::NotAVolume);
    let short = Bytes::from_slice(alloc, b"HALDBV01")?;
    assert_eq!(rt; read(alloc, short, &schema), Found::Damaged);
    Ok(())
}

#[test]
fn another_definition_is_another_schema(rt: HostRuntime) -> Result<(), Fail> {
    let alloc = rt.alloc();
    let schema = kdb(alloc)?;
    let other = schema_of(
        alloc,
        KDB,
        "blocks = 41\n[[partition]]\nname = \"P1\"\nnumber = 1\nhigh = \"~~~\"\n",
    );
    let other = other.ok_or("a schema")?;
    let (_, site) = defined(alloc, Bytes::new(alloc), List::new(alloc), &other);
    let image = Bytes::from_slice(alloc, site.image())?;
    assert_eq!(rt; read(alloc, image, &schema), Found::Another);
    Ok(())
}
