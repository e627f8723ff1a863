// KDB with two partitions: pages of two letters are added, the first partition is switched, and the volume goes back.
ghost use Rattle.std.specs.Prelude.{◌≡◌, ◌<◌, IfOk, length};

use crate::volume::{FIRST, OUTPUT, PAUSED, Untold, put, zeros};
use block_journal::Journal;
use data_set_pairs::Volume;
use hal_base::{Bytes, Cursor, List, Live, Name8, PartState, SetId, Shelf};
use hal_disk::MemSite;
use hal_schema::{RawDbd, RawField, RawPart, RawParts, RawSchema, RawType, Schema};
use std::alloc::Global;
use std::test::Fail;

fn name(text: &[u8]) -> Result<Name8, Fail> {
    match Name8::read(text) {
        Some(name) => Ok(name),
        None => Err("no name".into()),
    }
}

fn raw_field(text: &[u8], start: u32, bytes: u32, seq: u8) -> Result<RawField, Fail> {
    Ok(RawField {
        name: name(text)?,
        start,
        bytes,
        seq,
        line: 3,
    })
}

fn raw_dbd(alloc: Global) -> Result<RawDbd, Fail> {
    let mut fields = List::new(alloc);
    fields.push(raw_field(b"K", 1, 3, 1)?)?;
    fields.push(raw_field(b"V", 4, 2, 0)?)?;
    let mut types = List::new(alloc);
    types.push(RawType {
        name: name(b"R")?,
        parent: None,
        bytes: 5,
        first: false,
        letter: b'A',
        fields,
        line: 2,
    })?;
    Ok(RawDbd {
        name: name(b"KDB")?,
        phdam: false,
        rm: None,
        anch: 1,
        rbn: 1,
        types,
        indexes: List::new(alloc),
    })
}

fn raw_part(alloc: Global, text: &[u8], number: u32, high: &[u8]) -> Result<RawPart, Fail> {
    Ok(RawPart {
        name: name(text)?,
        number,
        high: Bytes::from_slice(alloc, high)?,
        anchors: None,
        fbff: 0,
        fspf: 0,
        place: number,
    })
}

fn two_parts(alloc: Global) -> Result<Schema, Fail>
    ensures parts { IfOk result (λ schema. length schema.parts ≡ 2) }
    ensures blocks { IfOk result (λ schema. schema.blocks ≡ 40) }
{
    let mut parts = List::new(alloc);
    parts.push(raw_part(alloc, b"P1", 1, b"500")?)?;
    parts.push(raw_part(alloc, b"P2", 2, b"~~~")?)?;
    let raw = RawSchema {
        dbd: raw_dbd(alloc)?,
        parts: RawParts { blocks: 40, parts },
    };
    if raw.dbd.types.len() == 0 || !raw.dbd.is_named() || !raw.parts.are_named() {
        return Err("no names".into());
    }
    match Schema::build(alloc, raw) {
        Ok(schema) if schema.parts.len() == 2 && schema.blocks == 40 => Ok(schema),
        _ => Err("not lawful".into()),
    }
}

// The volume before its first page: of the first partition a reorganization is paused.
fn new_volume(alloc: Global) -> Result<Volume<Journal<Untold>>, Fail>
    ensures { IfOk result (λ volume. length volume.states.items ≡ 2) }
{
    let schema = two_parts(alloc)?;
    let mut image = zeros(alloc)?;
    put(&mut image, FIRST, PAUSED);
    put(&mut image, FIRST + 128, b"\0\x02\0\x01AI\0\0");
    let site = MemSite::new(alloc, Bytes::from_vec(image), List::new(alloc));
    let Ok(journal) = Journal::open(alloc, Untold(site), FIRST as u64, 41) else {
        return Err("not opened".into());
    };
    match Volume::read(alloc, journal, &schema) {
        Ok(volume) => Ok(volume),
        Err(_) => Err("not read".into()),
    }
}

fn set_of(part: u16, letter: u8) -> SetId {
    SetId {
        part,
        number: 1,
        letter,
    }
}

// The number of the page that is added.
fn grown(volume: &mut Volume<Journal<Untold>>, set: SetId) -> Result<u16, Fail>
    ensures { volume.new.states.items ≡ volume.old.states.items }
{
    if !volume.is_live() || !volume.takes(set, 1) {
        return Err("not taken".into());
    }
    match volume.grow(set, 1) {
        Ok(page) => Ok(page),
        Err(_) => Err("not grown".into()),
    }
}

fn commit(volume: &mut Volume<Journal<Untold>>) -> Result<(), Fail>
    ensures { volume.new.states.items ≡ volume.old.states.items }
{
    if !volume.is_live() || volume.commit().is_err() {
        return Err("not committed".into());
    }
    Ok(())
}

// The first partition's reorganization ends.
fn switch(volume: &mut Volume<Journal<Untold>>) -> Result<(), Fail>
    requires { 0 < length volume.old.states.items }
{
    let idle = PartState {
        part: 1,
        number: 2,
        side: b'M',
        state: b'I',
        cursor: Cursor::Front,
    };
    if !volume.is_live() || volume.set_state(0, &idle).is_err() {
        return Err("not switched".into());
    }
    Ok(())
}

// Each of these pages stands in the block beside it, or isn't there.
fn stand(volume: &Volume<Journal<Untold>>, pages: &[(SetId, u16, Option<u32>)]) -> bool {
    for (set, page, block) in pages {
        if volume.block_of(*set, *page) != *block {
            return false;
        }
    }
    true
}

#[test]
fn pages_of_two_letters_and_partitions_stand_through_a_switch(rt: HostRuntime) -> Result<(), Fail> {
    let mut volume = new_volume(rt.alloc())?;
    let [a, b] = [set_of(1, b'A'), set_of(1, b'B')];
    let [other_a, other_b] = [set_of(2, b'A'), set_of(2, b'B')];
    assert_eq!(rt; grown(&mut volume, a)?, 0);
    assert_eq!(rt; grown(&mut volume, other_b)?, 0);
    assert_eq!(rt; grown(&mut volume, b)?, 0);
    assert_eq!(rt; grown(&mut volume, a)?, 1);
    assert_eq!(rt; grown(&mut volume, other_a)?, 0);
    assert_eq!(rt; grown(&mut volume, OUTPUT)?, 0);
    assert_eq!(rt; grown(&mut volume, other_b)?, 1);
    commit(&mut volume)?;
    assert_eq!(rt; grown(&mut volume, b)?, 1);
    switch(&mut volume)?;
    assert_eq!(rt; volume.free_count(), 36);
    assert!(rt;
        stand(
            &volume,
            &[(a, 0, None), (a, 1, None), (b, 0, None), (b, 1, None)]
        )
    );
    assert!(rt; stand(&volume, &[(OUTPUT, 0, Some(6)), (other_a, 0, Some(5))]));
    assert!(rt; stand(&volume, &[(other_b, 0, Some(2)), (other_b, 1, Some(7))]));
    assert_eq!(rt; grown(&mut volume, OUTPUT)?, 1);
    assert_eq!(rt; grown(&mut volume, other_a)?, 1);
    assert!(rt; stand(&volume, &[(OUTPUT, 1, Some(1)), (other_a, 1, Some(3))]));
    assert!(rt; volume.is_live());
    volume.forget();
    assert_eq!(rt; volume.free_count(), 33);
    assert!(rt; stand(&volume, &[(a, 1, Some(4)), (b, 0, Some(3)), (b, 1, None)]));
    assert!(rt; stand(&volume, &[(OUTPUT, 0, Some(6)), (OUTPUT, 1, None)]));
    assert!(rt; stand(&volume, &[(other_a, 1, None), (other_b, 1, Some(7))]));
    Ok(())
}
