// Secondary indexes with entries of the longest keys, two of them on one shelf beside an indirect list.
ghost use Rattle.std.specs.Prelude.{◌≡◌, length, IfOk};

use crate::{OpenIndex, OpenList};
use dbd_reader::read_dbd;
use eps_pointers::{Eps, Ile};
use hal_base::{Bytes, Ilk};
use hal_schema::{RawSchema, Schema};
use memory_shelf::QuietShelf;
use partition_reader::read_partitions;
use secondary_index::{AddFault, Entry};
use std::test::Fail;

const XDB: &str =
    "DBD NAME=XDB,ACCESS=(PHIDAM)\nSEGM NAME=R,PARENT=0,BYTES=250\nFIELD NAME=(K,SEQ,U),BYTES=3,START=1\nFIELD NAME=V,BYTES=237,START=4\nFIELD NAME=/CK1,BYTES=3,START=1\nLCHILD NAME=(VX,VDB),PTR=INDX\nXDFLD NAME=XV,SRCH=V,SUBSEQ=/CK1\nLCHILD NAME=(WX,WDB),PTR=INDX\nXDFLD NAME=XW,SRCH=V\nDBDGEN\nEND\n";

const XDB_PARTS: &str = "blocks = 40\n[[partition]]\nname = \"P1\"\nnumber = 1\nhigh = \"999\"\n";

pub(crate) fn schema_of(rt: &HostRuntime) -> Result<Schema, Fail>
    ensures { IfOk result (λ schema. length schema.indexes ≡ 2) }
{
    let (dbd, _) = read_dbd(rt.alloc(), XDB.as_bytes())?;
    let parts = read_partitions(rt.alloc(), XDB_PARTS.as_bytes())?;
    let schema = Schema::build(rt.alloc(), RawSchema { dbd, parts })?;
    if schema.indexes.len() != 2 {
        return Err(Fail::from("two indexes"));
    }
    Ok(schema)
}

/// An entry whose key has so many bytes, of which the last is the number.
pub(crate) fn entry_of(rt: &HostRuntime, bytes: usize, number: u8) -> Result<Entry, Fail> {
    let mut key = [7; 240];
    key[239] = number;
    let eps = Eps {
        part: 1,
        number: 2,
        addr: u32::from(number) + 16,
        ilk: Ilk {
            addr: u32::from(number) + 32,
            part: 1,
            number: 1,
        },
    };
    Ok(Entry {
        key: Bytes::from_slice(
            rt.alloc(),
            key.get(240usize.saturating_sub(bytes)..).unwrap_or(&[]),
        )?,
        eps,
        root: Bytes::from_slice(rt.alloc(), &[b'0', b'0', number])?,
    })
}

/// The number of an entry that is all as it was added.
fn number_of(found: Option<Entry>) -> Option<u8> {
    let entry = found?;
    let number = *entry.root.as_slice().last()?;
    let whole = entry.key.as_slice().last() == Some(&number)
        && entry.eps.addr == u32::from(number) + 16
        && entry.eps.ilk.addr == u32::from(number) + 32;
    whole.then_some(number)
}

#[test]
fn long_keys_stand_in_order_each_once(rt: HostRuntime) -> Result<(), Fail> {
    let schema = schema_of(&rt)?;
    let Ok(mut index) = OpenIndex::new(rt.alloc(), QuietShelf::new(rt.alloc(), 8), &schema, 0)
    else {
        return Err("opened".into());
    };
    for step in 0..40u8 {
        let entry = entry_of(&rt, 240, (step * 3) % 40)?;
        assert_eq!(rt; index.add(&entry), Ok(true));
        assert_eq!(rt; index.add(&entry), Err(AddFault::Taken));
    }
    assert_eq!(rt; index.add(&entry_of(&rt, 239, 50)?), Ok(false));
    for number in 0..39u8 {
        let low = entry_of(&rt, 240, number)?;
        let high = entry_of(&rt, 240, number + 1)?;
        assert_eq!(rt;
            index.entries_after(Some(low.key.as_slice())).map(number_of),
            Ok(Some(number + 1))
        );
        assert_eq!(rt;
            index.entries_before(high.key.as_slice()).map(number_of),
            Ok(Some(number))
        );
    }
    assert_eq!(rt; index.entries_after(None).map(number_of), Ok(Some(0)));
    Ok(())
}

#[test]
fn two_indexes_stand_on_one_shelf_beside_a_list(rt: HostRuntime) -> Result<(), Fail> {
    let schema = schema_of(&rt)?;
    let entry = entry_of(&rt, 240, 5)?;
    let Ok(mut first) = OpenIndex::new(rt.alloc(), QuietShelf::new(rt.alloc(), 8), &schema, 0)
    else {
        return Err("opened".into());
    };
    assert_eq!(rt; first.add(&entry), Ok(true));
    let Ok(mut second) = OpenIndex::new(rt.alloc(), first.into_shelf(), &schema, 1) else {
        return Err("opened beside it".into());
    };
    assert_eq!(rt; second.entries_after(None).map(number_of), Ok(None));
    assert_eq!(rt; second.add(&entry_of(&rt, 237, 6)?), Ok(true));
    let Ok(mut list) = OpenList::new(rt.alloc(), second.into_shelf()) else {
        return Err("opened the list".into());
    };
    let home = Ile {
        addr: 48,
        number: 3,
    };
    assert_eq!(rt; list.find(entry.eps.ilk, 2), Ok(None));
    assert_eq!(rt; list.set(entry.eps.ilk, 2, home), Ok(()));
    assert_eq!(rt; list.find(entry.eps.ilk, 2), Ok(Some(home)));
    let Ok(mut first) = OpenIndex::new(rt.alloc(), list.into_shelf(), &schema, 0) else {
        return Err("opened again".into());
    };
    assert_eq!(rt; first.entries_after(None).map(number_of), Ok(Some(5)));
    assert_eq!(rt; first.remove(entry.key.as_slice()), Ok(true));
    assert_eq!(rt; first.remove(entry.key.as_slice()), Ok(false));
    assert_eq!(rt; first.entries_after(None).map(number_of), Ok(None));
    Ok(())
}
