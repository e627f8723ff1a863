use crate::file_site::{read_on, write_on};
use crate::input_source::piece_of;
use crate::{FileSite, MemSite, MemSource, SureSite, SureSource};
use hal_base::{Bytes, List, Site, Source};
use std::fs::{self, File, OpenOptions};
use std::io::{self, ErrorKind, Read};
use std::os::unix::fs::FileExt;
use std::test::Fail;

#[test]
fn pieces_come_and_the_named_call_fails(rt: HostRuntime) -> Result<(), Fail> {
    let alloc = rt.alloc();
    let mut failing = List::new(alloc);
    failing.push(2u64)?;
    let mut source = MemSource::new(Bytes::from_slice(alloc, b"abc")?, 2, failing);
    let mut buf = [0u8; 8];
    assert_eq!(rt; source.next_piece(&mut buf), Ok(2));
    assert_eq!(rt; &buf[..2], b"ab".as_slice());
    assert!(rt; source.next_piece(&mut buf).is_err());
    assert_eq!(rt; source.next_piece(&mut buf), Ok(1));
    assert_eq!(rt; source.next_piece(&mut buf), Ok(0));
    Ok(())
}

#[test]
fn a_sure_source_gives_all(rt: HostRuntime) -> Result<(), Fail> {
    let mut source = SureSource::new(Bytes::from_slice(rt.alloc(), b"abc")?);
    let mut buf = [0u8; 2];
    assert_eq!(rt; source.next_piece(&mut buf), Ok(2));
    assert_eq!(rt; source.next_piece(&mut buf), Ok(1));
    assert_eq!(rt; source.next_piece(&mut buf), Ok(0));
    Ok(())
}

#[test]
fn a_sure_site_refuses_past_its_room(rt: HostRuntime) -> Result<(), Fail> {
    let alloc = rt.alloc();
    let mut site = SureSite::new(alloc, Bytes::from_slice(alloc, b"abc")?);
    assert!(rt; site.write_at(3, b"d").is_err());
    assert!(rt; site.say(b"x").is_err());
    site.reserve(4, 2)?;
    assert!(rt; site.write_at(3, b"d").is_ok());
    assert!(rt; site.write_at(4, b"e").is_err());
    assert!(rt; site.say(b"xy").is_ok());
    assert!(rt; site.say(b"z").is_err());
    assert_eq!(rt; site.image(), b"abcd".as_slice());
    assert_eq!(rt; site.said(), b"xy".as_slice());
    Ok(())
}

#[test]
fn a_site_in_memory_tells_what_a_stop_leaves(rt: HostRuntime) -> Result<(), Fail> {
    let alloc = rt.alloc();
    let mut failing = List::new(alloc);
    failing.push(4u64)?;
    let mut site = MemSite::new(alloc, Bytes::from_slice(alloc, b"abc")?, failing);
    assert!(rt; site.write_at(1, b"XY").is_ok());
    assert!(rt; site.sync().is_ok());
    assert!(rt; site.say(b"12").is_ok());
    assert!(rt; site.say(b"3456").is_err());
    assert_eq!(rt; site.image(), b"aXY".as_slice());
    assert_eq!(rt; site.said(), b"1234".as_slice());
    assert_eq!(rt; site.calls(), 4);
    for (moment, kept, torn, image) in [
        (0u64, false, 9u8, b"abc"),
        (1, true, 9, b"aXY"),
        (1, false, b'?', b"a??"),
        (2, false, b'?', b"aXY"),
    ] {
        assert_eq!(rt;
            site.stopped(moment, kept, torn)?.as_slice(),
            image.as_slice()
        );
    }
    assert_eq!(rt; site.said_at(3)?.as_slice(), b"12".as_slice());
    Ok(())
}

#[test]
fn a_file_is_read_back(rt: HostRuntime) -> Result<(), Fail> {
    let alloc = rt.alloc();
    let path = "haldb-test.vol";
    let mut site = FileSite::new(
        rt.clone()?,
        Bytes::from_slice(alloc, path.as_bytes())?,
        true,
    );
    assert!(rt; site.write_at(4096, &[7; 16]).is_ok());
    assert!(rt; site.sync().is_ok());
    let mut read = [1u8; 32];
    assert_eq!(rt; site.read_at(4088, &mut read), Ok(24));
    assert_eq!(rt; &read[..8], [0u8; 8].as_slice());
    assert_eq!(rt; &read[8..24], [7u8; 16].as_slice());
    fs::remove_file(&rt, path)?;
    let absent = Bytes::from_slice(alloc, b"haldb-absent.vol")?;
    let mut absent = FileSite::new(rt.clone()?, absent, false);
    assert!(rt; absent.read_at(0, &mut read).is_err());
    Ok(())
}

// What the null device can't do a sync asks of it, and the full device takes no byte.
#[test]
fn a_sync_and_a_write_are_asked_of_the_system(rt: HostRuntime) -> Result<(), Fail> {
    let alloc = rt.alloc();
    let null = Bytes::from_slice(alloc, b"/dev/null")?;
    let mut null = FileSite::new(rt.clone()?, null, false);
    assert!(rt; null.write_at(0, b"x").is_ok());
    assert!(rt; null.sync().is_err());
    let full = Bytes::from_slice(alloc, b"/dev/full")?;
    let mut full = FileSite::new(rt.clone()?, full, false);
    assert!(rt; full.write_at(0, b"x").is_err());
    Ok(())
}

// A file that gives and takes at most three bytes a call.
#[derive(Drop)]
struct SlowFile(File);

impl FileExt for SlowFile {
    fn read_at(&self, buf: &mut [u8], offset: u64) -> io::Result<usize> {
        let most = buf.len().min(3);
        self.0.read_at(&mut buf[..most], offset)
    }

    fn write_at(&self, buf: &[u8], offset: u64) -> io::Result<usize> {
        self.0.write_at(&buf[..buf.len().min(3)], offset)
    }
}

// A file that gives and takes no byte.
#[derive(Drop)]
struct NoFile;

impl FileExt for NoFile {
    fn read_at(&self, _: &mut [u8], _: u64) -> io::Result<usize> {
        Ok(0)
    }

    fn write_at(&self, _: &[u8], _: u64) -> io::Result<usize> {
        Ok(0)
    }
}

#[test]
fn a_read_and_a_write_go_on_after_a_part(rt: HostRuntime) -> Result<(), Fail> {
    let path = "haldb-parts.vol";
    let file = OpenOptions::new()
        .read(true)
        .write(true)
        .create(true)
        .open(&rt, path)?;
    let file = SlowFile(file);
    write_on(&file, 5, b"abcdefgh")?;
    let mut read = [1u8; 16];
    assert_eq!(rt; read_on(&file, 0, &mut read)?, 13);
    assert_eq!(rt; &read[..13], b"\0\0\0\0\0abcdefgh".as_slice());
    fs::remove_file(&rt, path)?;
    assert!(rt; write_on(&NoFile, 0, b"x").is_err());
    assert_eq!(rt; read_on(&NoFile, 0, &mut read)?, 0);
    Ok(())
}

// An input that can't be read.
#[derive(Drop)]
struct NoInput;

impl Read for NoInput {
    fn read(&mut self, _: &mut [u8]) -> io::Result<usize> {
        Err(ErrorKind::Other.into())
    }
}

#[test]
fn a_failed_read_is_not_the_end(rt: HostRuntime) -> Result<(), Fail> {
    let mut buf = [0u8; 4];
    let mut faults = 0;
    assert!(rt; piece_of(&mut NoInput, &mut buf, &mut faults).is_err());
    assert_eq!(rt; faults, 1);
    let mut text = b"ab".as_slice();
    assert_eq!(rt; piece_of(&mut text, &mut buf, &mut faults), Ok(2));
    assert_eq!(rt; piece_of(&mut text, &mut buf, &mut faults), Ok(0));
    assert_eq!(rt; faults, 1);
    Ok(())
}
