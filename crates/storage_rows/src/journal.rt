// The block journal over sites in memory.
use crate::{BODY, image_of};
use block_journal::{Journal, OpenWhy};
use hal_base::{BLOCK, Blocks, Bytes, List, Live, Memory, Store};
use hal_disk::{MemSite, SureSite};
use std::alloc::{AllocError, Global};
use std::test::Fail;

const FIRST: u64 = 8192;

fn byte(image: &[u8], at: usize) -> u8 {
    image.get(at).copied().unwrap_or(0)
}

// A byte of a block, after the redo: that of the body where the gate is open and the body has the block.
fn redone_byte(image: &[u8], block: u8, offset: u16) -> u8 {
    let mut value = byte(image, 8192 + 4096 * block as usize + offset as usize);
    if byte(image, 4096) == 1 {
        for k in 0..byte(image, BODY + 3) {
            let at = BODY + 8 + 4100 * k as usize;
            if byte(image, at + 3) == block {
                value = byte(image, at + 4 + offset as usize);
            }
        }
    }
    value
}

// An image whose bytes the proofs of these tests needn't know.
fn image_with(alloc: Global, gate: u8, behind: &[u8]) -> Result<Bytes, AllocError> {
    image_of(alloc, gate, behind)
}

fn zeros(alloc: Global) -> Result<Bytes, AllocError> {
    Ok(Bytes::from_vec(vec![in alloc; 0; BODY]?))
}

// An image of three blocks of zeros behind a head and a gate block of other bytes; the gate is closed.
fn marked(alloc: Global) -> Result<Bytes, AllocError> {
    let mut image = vec![in alloc; 0u8; BODY]?;
    for at in 0..8192usize {
        if let Some(byte) = image.get_mut(at) {
            *byte = (at % 200) as u8 + 2;
        }
    }
    Ok(Bytes::from_vec(image))
}

// Whether two images have the same bytes below the blocks, but for the gate's.
fn have_one_front(a: &[u8], b: &[u8]) -> bool {
    match (
        a.get(..4096),
        b.get(..4096),
        a.get(4097..8192),
        b.get(4097..8192),
    ) {
        (Some(head), Some(old_head), Some(rest), Some(old_rest)) => {
            head == old_head && rest == old_rest
        }
        _ => false,
    }
}

// A body that begins with these two numbers, and has a block of eights for each of the others.
fn body_of(alloc: Global, count: u32, one: u32, numbers: &[u32]) -> Result<Vec<u8>, AllocError> {
    let mut body = Vec::new(alloc);
    body.extend_from_slice(&count.to_be_bytes())?;
    body.extend_from_slice(&one.to_be_bytes())?;
    for number in numbers {
        body.extend_from_slice(&number.to_be_bytes())?;
        body.extend_from_slice(&[8; BLOCK])?;
    }
    Ok(body)
}

// The site after an opening of the image, whose gate is closed then.
fn opened(alloc: Global, image: Bytes) -> Result<MemSite, Fail> {
    let site = MemSite::new(alloc, image, List::new(alloc));
    let journal = Journal::open(alloc, site, FIRST, 3).ok().ok_or("opened")?;
    let site = journal.close();
    if byte(site.image(), 4096) == 1 {
        return Err("an open gate".into());
    }
    Ok(site)
}

// The first byte of block 0 and the last one of block 2.
fn ends(site: &MemSite) -> (u8, u8) {
    (
        byte(site.image(), 8192),
        byte(site.image(), 8192 + 2 * 4096 + 4095),
    )
}

// Whether each stop within an opening, and an opening after it, gives the same blocks.
fn opens_alike(alloc: Global, site: &MemSite) -> Result<bool, Fail> {
    for moment in 0..=site.calls() {
        for (kept, torn) in [(true, 0), (false, 1), (false, 255)] {
            let image = site.stopped(moment, kept, torn)?;
            if ends(&opened(alloc, image)?) != ends(site) {
                return Ok(false);
            }
        }
    }
    Ok(true)
}

#[test]
fn a_stop_leaves_both_old_blocks_or_both_new_ones(rt: HostRuntime) -> Result<(), Fail> {
    let alloc = rt.alloc();
    let site = MemSite::new(alloc, zeros(alloc)?, List::new(alloc));
    let mut journal = Journal::open(alloc, site, FIRST, 3).ok().ok_or("opened")?;
    assert!(rt; journal.is_live());
    assert_eq!(rt; journal.count(), 3);
    journal.stage(0, &[7; BLOCK]).ok().ok_or("staged")?;
    assert!(rt; journal.is_live());
    assert_eq!(rt; journal.count(), 3);
    journal.stage(2, &[9; BLOCK]).ok().ok_or("staged")?;
    assert!(rt; journal.is_live());
    journal.commit().ok().ok_or("committed")?;
    let site = journal.close();
    let begun = 6;
    let sure = begun + 4;
    for moment in 0..=site.calls() {
        for (kept, torn) in [(true, 0), (false, 0), (false, 1), (false, 255)] {
            let image = site.stopped(moment, kept, torn)?;
            let first = redone_byte(image.as_slice(), 0, 0);
            let last = redone_byte(image.as_slice(), 2, 4095);
            let old = first == 0 && last == 0;
            let new = first == 7 && last == 9;
            assert!(rt; old || new, "{moment} {kept} {torn}: {first} {last}");
            assert!(rt; new || moment < sure, "{moment} {kept} {torn}");
            let again = opened(alloc, image)?;
            assert_eq!(rt; ends(&again), (first, last), "{moment} {kept} {torn}");
            assert!(rt; opens_alike(alloc, &again)?, "{moment} {kept} {torn}");
        }
    }
    Ok(())
}

#[test]
fn below_the_blocks_nothing_changes(rt: HostRuntime) -> Result<(), Fail> {
    let alloc = rt.alloc();
    let marks = marked(alloc)?;
    let site = MemSite::new(alloc, marks.copy()?, List::new(alloc));
    let mut journal = Journal::open(alloc, site, FIRST, 3).ok().ok_or("opened")?;
    assert!(rt; journal.is_live());
    assert_eq!(rt; journal.count(), 3);
    journal.stage(0, &[7; BLOCK]).ok().ok_or("staged")?;
    assert!(rt; journal.is_live());
    journal.commit().ok().ok_or("committed")?;
    let site = journal.close();
    for moment in 0..=site.calls() {
        for (kept, torn) in [(true, 0), (false, 1), (false, 255)] {
            let image = site.stopped(moment, kept, torn)?;
            assert!(rt;
                have_one_front(image.as_slice(), marks.as_slice()),
                "{moment} {kept} {torn}"
            );
            let again = opened(alloc, image)?;
            assert!(rt;
                have_one_front(again.image(), marks.as_slice()),
                "{moment} {kept} {torn}"
            );
        }
    }
    Ok(())
}

#[test]
fn a_commit_of_no_blocks_makes_no_call(rt: HostRuntime) -> Result<(), Fail> {
    let alloc = rt.alloc();
    let calls = opened(alloc, zeros(alloc)?)?.calls();
    let site = MemSite::new(alloc, zeros(alloc)?, List::new(alloc));
    let mut journal = Journal::open(alloc, site, FIRST, 3).ok().ok_or("opened")?;
    assert!(rt; journal.is_live());
    journal.commit().ok().ok_or("committed")?;
    assert_eq!(rt; journal.count(), 3);
    assert!(rt; journal.is_live());
    journal.stage(1, &[5; BLOCK]).ok().ok_or("staged")?;
    assert!(rt; journal.is_live());
    journal.forget();
    assert!(rt; journal.is_live());
    journal.commit().ok().ok_or("committed")?;
    assert_eq!(rt; journal.close().calls(), calls);
    Ok(())
}

#[test]
fn an_opening_redoes_an_open_journal(rt: HostRuntime) -> Result<(), Fail> {
    let alloc = rt.alloc();
    let body = body_of(alloc, 2, 1, &[0, 2])?;
    let site = SureSite::new(alloc, image_with(alloc, 1, &body)?);
    let mut journal = Journal::open(alloc, site, FIRST, 3).ok().ok_or("opened")?;
    for (number, value) in [(0, 8), (1, 0), (2, 8)] {
        let mut block = [1; BLOCK];
        assert!(rt; journal.is_live() && number < journal.count());
        journal.fetch(number, &mut block).ok().ok_or("fetched")?;
        assert_eq!(rt; block[0], value, "{number}");
    }
    let site = journal.close();
    assert_eq!(rt; byte(site.image(), 4096), 0);
    assert_eq!(rt; byte(site.image(), 8192), 8);
    Ok(())
}

// Whether the image is refused as damaged, and left as it was.
fn is_damaged(alloc: Global, image: &Bytes) -> Result<bool, Memory> {
    let site = MemSite::new(alloc, image.copy()?, List::new(alloc));
    match Journal::open(alloc, site, FIRST, 3) {
        Ok(_) => Ok(false),
        Err(fault) => {
            Ok(fault.why == OpenWhy::Damaged(1) && fault.site.image() == image.as_slice())
        }
    }
}

#[test]
fn a_body_that_breaks_its_layout_is_damaged(rt: HostRuntime) -> Result<(), Fail> {
    let alloc = rt.alloc();
    let bodies: [(u32, u32, &[u32]); 10] = [
        (0, 1, &[]),
        (0, 1, &[0]),
        (u32::MAX, 1, &[0, 1, 2]),
        (4, 1, &[0, 1, 2, 3]),
        (1, 0, &[0]),
        (1, 2, &[0]),
        (1, 1, &[3]),
        (1, 1, &[u32::MAX]),
        (2, 1, &[1, 1]),
        (2, 1, &[2, 0]),
    ];
    for (count, one, numbers) in bodies {
        let image = image_with(alloc, 1, &body_of(alloc, count, one, numbers)?)?;
        assert!(rt; is_damaged(alloc, &image)?, "{count} {one}");
    }
    let whole: [&[u32]; 3] = [&[2], &[0, 2], &[0, 1, 2]];
    for numbers in whole {
        let image = image_with(alloc, 1, &body_of(alloc, numbers.len() as u32, 1, numbers)?)?;
        opened(alloc, image)?;
    }
    Ok(())
}

#[test]
fn a_body_that_is_cut_short_is_damaged(rt: HostRuntime) -> Result<(), Fail> {
    let alloc = rt.alloc();
    let body = body_of(alloc, 2, 1, &[0, 2])?;
    for cut in 0..body.len() {
        if cut < 20 || cut % 67 == 0 || body.len() - cut < 20 {
            let image = image_with(alloc, 1, &body[..cut])?;
            assert!(rt; is_damaged(alloc, &image)?, "{cut}");
        }
    }
    for length in [4097, 8192, 8193, BODY - 1] {
        let image = image_with(alloc, 1, &[])?;
        let short = Bytes::from_slice(alloc, &image.as_slice()[..length.min(image.len())])?;
        assert!(rt; is_damaged(alloc, &short)?, "{length}");
    }
    Ok(())
}

#[test]
fn every_other_gate_is_closed(rt: HostRuntime) -> Result<(), Fail> {
    let alloc = rt.alloc();
    let body = body_of(alloc, 1, 1, &[0])?;
    for gate in [0, 2, 255] {
        let site = opened(alloc, image_with(alloc, gate, &body)?)?;
        assert_eq!(rt; ends(&site), (0, 0), "{gate}");
        assert_eq!(rt; byte(site.image(), 4096), gate);
    }
    for length in [0, 100, 4096, 4097, 8192, BODY - 1] {
        let site = opened(alloc, Bytes::from_vec(vec![in alloc; 0; length]?))?;
        assert_eq!(rt; site.image().len(), BODY, "{length}");
        assert_eq!(rt; ends(&site), (0, 0), "{length}");
    }
    Ok(())
}

#[test]
fn a_fault_within_an_opening_keeps_the_journal(rt: HostRuntime) -> Result<(), Fail> {
    let alloc = rt.alloc();
    let body = body_of(alloc, 2, 1, &[0, 2])?;
    for failing in 1..17 {
        let mut calls = List::new(alloc);
        calls.push(failing)?;
        let site = MemSite::new(alloc, image_with(alloc, 1, &body)?, calls);
        let Err(fault) = Journal::open(alloc, site, FIRST, 3) else {
            return Err("a fault that isn't told".into());
        };
        assert!(rt; fault.why == OpenWhy::DiskFault, "{failing}");
        let image = fault.site.stopped(fault.site.calls(), false, 255)?;
        assert_eq!(rt; ends(&opened(alloc, image)?), (8, 8), "{failing}");
    }
    Ok(())
}

#[test]
fn a_staged_block_is_kept_or_forgotten(rt: HostRuntime) -> Result<(), Fail> {
    let alloc = rt.alloc();
    let mut site = SureSite::new(alloc, zeros(alloc)?);
    site.reserve((BODY + 2 * BLOCK) as u64, 0)?;
    let mut journal = Journal::open(alloc, site, FIRST, 3).ok().ok_or("opened")?;
    assert!(rt; journal.is_live());
    assert_eq!(rt; journal.count(), 3);
    journal.stage(1, &[5; BLOCK]).ok().ok_or("staged")?;
    assert!(rt; journal.is_live());
    journal.forget();
    assert_eq!(rt; journal.count(), 3);
    let mut block = [1; BLOCK];
    journal.fetch(1, &mut block).ok().ok_or("fetched")?;
    assert_eq!(rt; block[0], 0);
    assert!(rt; journal.is_live());
    assert_eq!(rt; journal.count(), 3);
    journal.stage(1, &[6; BLOCK]).ok().ok_or("staged")?;
    assert!(rt; journal.is_live());
    journal.commit().ok().ok_or("committed")?;
    let site = journal.close();
    let place = 8192 + 4096;
    for at in place..place + BLOCK {
        assert_eq!(rt; byte(site.image(), at), 6);
    }
    assert_eq!(rt; byte(site.image(), place - 1), 0);
    assert_eq!(rt; byte(site.image(), place + BLOCK), 0);
    assert_eq!(rt; byte(site.image(), 4096), 0);
    Ok(())
}
