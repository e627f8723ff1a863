// A volume over a journal over a site in memory: KDB with one partition, one control block and forty data blocks.
ghost use Rattle.std.specs.Prelude.{None};

use block_journal::Journal;
use data_set_pairs::{VolWhy, Volume};
use hal_base::{
    BLOCK, Blocks, Bytes, Cursor, Failed, List, Live, PageFault, PartState, SetId, Shelf, Site,
};
use hal_disk::MemSite;
use hal_schema::first_schema;
use std::alloc::{AllocError, Global};
use std::test::Fail;

pub(crate) const FIRST: usize = 8192;

const CELLS: SetId = SetId {
    part: 1,
    number: 1,
    letter: b'A',
};

pub(crate) fn zeros(alloc: Global) -> Result<Vec<u8>, AllocError> {
    vec![in alloc; 0; FIRST + 41 * BLOCK]
}

// An image of zeros but for the control row and the heads of the first two data blocks.
fn image_of(alloc: Global, row: &[u8], first: &[u8], second: &[u8]) -> Result<Bytes, AllocError> {
    let mut image = zeros(alloc)?;
    put(&mut image, FIRST, row);
    put(&mut image, FIRST + BLOCK, first);
    put(&mut image, FIRST + 2 * BLOCK, second);
    Ok(Bytes::from_vec(image))
}

pub(crate) fn put(image: &mut [u8], at: usize, bytes: &[u8]) {
    for (to, from) in image.iter_mut().skip(at).zip(bytes) {
        *to = *from;
    }
}

// The volume that is read, or why it isn't.
fn read(
    alloc: Global,
    row: &[u8],
    first: &[u8],
    second: &[u8],
) -> Result<Result<Volume<Journal<MemSite>>, VolWhy>, Fail> {
    let schema = first_schema(alloc)?;
    let site = MemSite::new(
        alloc,
        image_of(alloc, row, first, second)?,
        List::new(alloc),
    );
    match Journal::open(alloc, site, FIRST as u64, 41) {
        Ok(journal) => match Volume::read(alloc, journal, &schema) {
            Ok(volume) => Ok(Ok(volume)),
            Err(fault) => Ok(Err(fault.why)),
        },
        Err(_) => Err("not opened".into()),
    }
}

const IDLE: &[u8] = b"\0\x01\0\x01AI\0\0";

pub(crate) const PAUSED: &[u8] = b"\0\x01\0\x01AP\0\0";

#[test]
fn a_page_takes_the_free_block_of_least_number(rt: HostRuntime) -> Result<(), Fail> {
    let mut volume = read(rt.alloc(), IDLE, b"", b"")?.ok().ok_or("read")?;
    assert_eq!(rt; volume.free_count(), 40);
    assert_eq!(rt; volume.block_of(CELLS, 0), None);
    assert_eq!(rt; volume.pages(CELLS), 0);
    assert!(rt; volume.is_live() && volume.takes(CELLS, 1) && !volume.takes(CELLS, 2));
    assert_eq!(rt; volume.grow(CELLS, 1), Ok(0));
    assert_eq!(rt; volume.free_count(), 39);
    assert_eq!(rt; volume.block_of(CELLS, 0), Some(1));
    assert_eq!(rt; volume.block_of(CELLS, 1), None);
    let mut page = [7; BLOCK];
    assert!(rt; volume.is_live() && volume.pages(CELLS) == 1);
    assert_eq!(rt; volume.fetch_page(CELLS, 0, &mut page), Ok(()));
    assert_eq!(rt; &page[..8], IDLE_PAGE);
    assert_eq!(rt; &page[16..20], [0, 0, 15, 240].as_slice());
    assert!(rt; volume.is_live());
    volume.forget();
    assert_eq!(rt; volume.free_count(), 40);
    assert_eq!(rt; volume.block_of(CELLS, 0), None);
    Ok(())
}

const IDLE_PAGE: &[u8] = b"\x01A\0\x01\0\x01\0\0";

#[test]
fn a_committed_page_stays(rt: HostRuntime) -> Result<(), Fail> {
    let mut volume = read(rt.alloc(), IDLE, b"", b"")?.ok().ok_or("read")?;
    assert!(rt; volume.is_live() && volume.takes(CELLS, 1));
    assert_eq!(rt; volume.grow(CELLS, 1), Ok(0));
    assert!(rt; volume.is_live());
    assert_eq!(rt; volume.commit(), Ok(()));
    assert!(rt; volume.is_live() && volume.takes(CELLS, 1));
    assert_eq!(rt; volume.grow(CELLS, 1), Ok(1));
    assert!(rt; volume.is_live());
    volume.forget();
    assert_eq!(rt; volume.free_count(), 39);
    assert_eq!(rt; volume.block_of(CELLS, 0), Some(1));
    assert_eq!(rt; volume.block_of(CELLS, 1), None);
    assert!(rt; volume.is_live());
    assert_eq!(rt; volume.say(b"done"), Ok(()));
    assert_eq!(rt; volume.blocks().count(), 41);
    let site = volume.into_blocks().close();
    assert_eq!(rt; site.said(), b"done".as_slice());
    assert_eq!(rt; site.image().get(FIRST + BLOCK + 1).copied(), Some(b'A'));
    Ok(())
}

#[test]
fn pages_are_added_until_no_block_is_free(rt: HostRuntime) -> Result<(), Fail> {
    let mut volume = read(rt.alloc(), IDLE, b"", b"")?.ok().ok_or("read")?;
    for n in 0..40u16 {
        assert!(rt; volume.is_live() && volume.takes(CELLS, 1));
        assert_eq!(rt; volume.grow(CELLS, 1), Ok(n));
    }
    assert!(rt; volume.is_live() && volume.takes(CELLS, 1));
    assert_eq!(rt; volume.grow(CELLS, 1), Err(PageFault::NoRoom));
    assert_eq!(rt; volume.free_count(), 0);
    assert_eq!(rt; volume.block_of(CELLS, 39), Some(40));
    Ok(())
}

// 0 for a volume that is read, else the rule that it breaks; and how many blocks are free.
fn verdict(alloc: Global, row: &[u8], first: &[u8], second: &[u8]) -> Result<(u8, u32), Fail> {
    match read(alloc, row, first, second)? {
        Ok(volume) => Ok((0, volume.free_count())),
        Err(VolWhy::Damaged(rule)) => Ok((rule, 0)),
        Err(_) => Err("not read".into()),
    }
}

#[test]
fn what_breaks_a_rule_is_said_of_the_lower_rule(rt: HostRuntime) -> Result<(), Fail> {
    for (row, first, second, wanted) in [
        (IDLE, IDLE_PAGE, b"".as_slice(), (0, 39)),
        (IDLE, b"\x01A\0\x01\0\x01\0\x01", IDLE_PAGE, (0, 38)),
        (
            b"\0\x01\0\x02AI\0\0",
            IDLE_PAGE,
            b"\x01L\0\x01\0\0\0\0",
            (0, 39),
        ),
        (PAUSED, b"\x01M\0\x01\0\x02\0\0", IDLE_PAGE, (0, 38)),
        (b"\0\x01\0\x01AI\0\0\x01", IDLE_PAGE, b"", (1, 0)),
        (b"\0\x02\0\x01AI\0\0", IDLE_PAGE, b"", (1, 0)),
        (b"\0\x01\0\x01AI\x01\x03100", IDLE_PAGE, b"", (1, 0)),
        (IDLE, b"\x03A\0\x01\0\x01\0\0", b"", (1, 0)),
        (IDLE, b"\x01A\0\x01\0\x02\0\0", b"", (1, 0)),
        (IDLE, b"\x01M\0\x01\0\x02\0\0", b"", (1, 0)),
        (IDLE, b"\x01A\0\x01\0\x01\0\0\x01", b"", (1, 0)),
        (IDLE, b"\x01A\0\x01\0\x01\0\x01", b"", (2, 0)),
        (IDLE, IDLE_PAGE, IDLE_PAGE, (2, 0)),
        (IDLE, b"\x01A\0\x01\0\x01\0\x01", b"\x03", (1, 0)),
    ] {
        assert_eq!(rt; verdict(rt.alloc(), row, first, second)?, wanted);
    }
    Ok(())
}

// A site in memory that tells nothing, as a file does.
#[derive(Drop)]
pub(crate) struct Untold(pub(crate) MemSite);

impl Site for Untold {
    ghost image = { λ _. None };

    ghost said = { λ _. None };

    ghost moment = { λ _. 0 };

    ghost left_at = { λ _ _ _ _. ⊥ };

    ghost disk_faults = { λ s. ⟦<MemSite as Site>⟧.disk_faults s.0 };

    ghost say_faults = { λ s. ⟦<MemSite as Site>⟧.say_faults s.0 };

    ghost room = { λ _. None };

    ghost said_now = { λ s bytes text left. absurd left };

    ghost reads_now = { λ s bytes text reads words left _ _. absurd left };

    fn read_at(&mut self, at: u64, buf: &mut [u8]) -> Result<usize, Failed> {
        self.0.read_at(at, buf)
    }

    fn write_at(&mut self, at: u64, content: &[u8]) -> Result<(), Failed> {
        self.0.write_at(at, content)
    }

    fn sync(&mut self) -> Result<(), Failed> {
        self.0.sync()
    }

    fn say(&mut self, text: &[u8]) -> Result<(), Failed> {
        self.0.say(text)
    }
}

pub(crate) const OUTPUT: SetId = SetId {
    part: 1,
    number: 2,
    letter: b'M',
};

#[test]
fn a_paused_state_reads_back(rt: HostRuntime) -> Result<(), Fail> {
    let alloc = rt.alloc();
    let schema = first_schema(alloc)?;
    let site = MemSite::new(alloc, image_of(alloc, IDLE, b"", b"")?, List::new(alloc));
    let Ok(journal) = Journal::open(alloc, Untold(site), FIRST as u64, 41) else {
        return Err("not opened".into());
    };
    let Ok(mut volume) = Volume::read(alloc, journal, &schema) else {
        return Err("not read".into());
    };
    let paused = PartState {
        part: 1,
        number: 1,
        side: b'A',
        state: b'P',
        cursor: Cursor::Front,
    };
    assert!(rt; volume.is_live() && !volume.takes(OUTPUT, 1));
    assert_eq!(rt; volume.set_state(0, &paused), Ok(()));
    assert!(rt; volume.takes(OUTPUT, 1));
    let copy = volume.state(0).copy()?;
    assert_eq!(rt; (copy.number, copy.side, copy.state), (1, b'A', b'P'));
    assert!(rt; volume.is_live());
    volume.forget();
    assert!(rt; !volume.takes(OUTPUT, 1));
    Ok(())
}

#[test]
fn a_switch_frees_the_old_side(rt: HostRuntime) -> Result<(), Fail> {
    let alloc = rt.alloc();
    let schema = first_schema(alloc)?;
    let image = image_of(alloc, PAUSED, IDLE_PAGE, b"\x01M\0\x01\0\x02\0\0")?;
    let site = MemSite::new(alloc, image, List::new(alloc));
    let Ok(journal) = Journal::open(alloc, Untold(site), FIRST as u64, 41) else {
        return Err("not opened".into());
    };
    let Ok(mut volume) = Volume::read(alloc, journal, &schema) else {
        return Err("not read".into());
    };
    let idle = PartState {
        part: 1,
        number: 2,
        side: b'M',
        state: b'I',
        cursor: Cursor::Front,
    };
    assert_eq!(rt; volume.free_count(), 38);
    assert_eq!(rt; volume.block_of(CELLS, 0), Some(1));
    assert!(rt; volume.is_live());
    assert_eq!(rt; volume.set_state(0, &idle), Ok(()));
    assert_eq!(rt; volume.free_count(), 39);
    assert_eq!(rt; volume.block_of(CELLS, 0), None);
    assert_eq!(rt; volume.block_of(OUTPUT, 0), Some(2));
    assert!(rt; volume.is_live() && volume.takes(OUTPUT, 1));
    assert_eq!(rt; volume.grow(OUTPUT, 1), Ok(1));
    assert_eq!(rt; volume.block_of(OUTPUT, 1), Some(1));
    assert!(rt; volume.is_live());
    volume.forget();
    assert_eq!(rt; volume.free_count(), 38);
    assert_eq!(rt; volume.block_of(CELLS, 0), Some(1));
    Ok(())
}
