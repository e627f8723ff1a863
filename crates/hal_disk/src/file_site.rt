// A file of the system, and standard output. Nothing that they hold is told.
ghost use Rattle.std.specs.Prelude.{◌≡◌, ◌≤◌, ◌+◌, ◌^◌, None, ◌-◌, length, min, IfOk};

use hal_base::{Bytes, Failed, Site};
use std::fs::{File, OpenOptions};
use std::io::Write;
use std::os::unix::fs::FileExt;
use std::rt::Files;
use std::{io, str};

/// A volume in a file, which is opened at the first read, write or sync. It says to standard output. Each
/// error of the system raises a count.
#[derive(Drop)]
pub struct FileSite<R> {
    rt: R,
    path: Bytes,
    create: bool,
    file: Option<File>,
    disk_faults: u64,
    say_faults: u64,
}

impl<R: Files<File = File> + Print + Drop> FileSite<R> {
    ghost use Rattle.hal_disk.specs.FileSite.{KeepsCounts, IsNewFile, IsSameFile};
    ghost use Rattle.hal_base.specs.Fault.{Rose};

    /// `create` makes an absent file; a file that is there is never made shorter.
    pub fn new(rt: R, path: Bytes, create: bool) -> FileSite<R>
        ensures { IsNewFile path create result }
    {
        FileSite {
            rt,
            path,
            create,
            file: None,
            disk_faults: 0,
            say_faults: 0,
        }
    }

    /// Opens the file if it isn't open.
    fn open(&mut self) -> io::Result<()>
        ensures { KeepsCounts self.old self.new }
    {
        if self.file.is_none() {
            let path = str::from_utf8(self.path.as_slice()).map_err(|_| io::Error::from(
                io::ErrorKind::InvalidInput,
            ))?;
            let file = OpenOptions::new()
                .read(true)
                .write(true)
                .create(self.create)
                .open(&self.rt, path)?;
            self.file = Some(file);
        }
        Ok(())
    }

    fn read_file(&mut self, at: u64, buf: &mut [u8]) -> io::Result<usize>
        requires { at + length buf.old ≤ 2 ^ 63 - 1 }
        ensures within { IfOk result (λ n. n ≤ length buf.new) }
        ensures counts { KeepsCounts self.old self.new }
    {
        self.open()?;
        match &self.file {
            Some(file) => read_on(file, at, buf),
            None => Err(io::ErrorKind::NotFound.into()),
        }
    }

    fn write_file(&mut self, at: u64, content: &[u8]) -> io::Result<()>
        requires { at + length content.now ≤ 2 ^ 63 - 1 }
        ensures { KeepsCounts self.old self.new }
    {
        self.open()?;
        match &self.file {
            Some(file) => write_on(file, at, content),
            None => Err(io::ErrorKind::NotFound.into()),
        }
    }

    fn sync_file(&mut self) -> io::Result<()>
        ensures { KeepsCounts self.old self.new }
    {
        self.open()?;
        match &self.file {
            Some(file) => file.sync_all(),
            None => Err(io::ErrorKind::NotFound.into()),
        }
    }

    fn print(&self, text: &[u8]) -> io::Result<()> {
        let mut out = io::writer(&self.rt);
        out.write_all(text)?;
        out.flush()
    }

    fn disk_fault(&mut self) -> Failed
        ensures exact { self.new.disk_faults ≡ min (self.old.disk_faults + 1) (2 ^ 64 - 1) }
        ensures rose { Rose self.old.disk_faults self.new.disk_faults }
        ensures later { self.old.disk_faults ≤ self.new.disk_faults }
        ensures say_faults { self.new.say_faults ≡ self.old.say_faults }
        ensures file { IsSameFile self.old self.new }
    {
        self.disk_faults = self.disk_faults.saturating_add(1);
        Failed
    }
}

impl<R: Files<File = File> + Print + Drop> Site for FileSite<R> {
    ghost use Rattle.hal_base.specs.Fault.{HasCause};
    ghost use Rattle.hal_disk.specs.Exact.{CountsFault};
    ghost use Rattle.hal_disk.specs.FileSite.{IsSameFile};

    ghost image = { λ _. None };

    ghost said = { λ _. None };

    ghost moment = { λ _. 0 };

    ghost left_at = { λ _ _ _ _. ⊥ };

    ghost disk_faults = { λ s. s.disk_faults };

    ghost say_faults = { λ s. s.say_faults };

    ghost room = { λ _. None };

    ghost said_now = { λ s bytes text left. absurd left };

    ghost reads_now = { λ s bytes text reads words left _ _. absurd left };

    fn read_at(&mut self, at: u64, buf: &mut [u8]) -> Result<usize, Failed>
        requires { at + length buf.old ≤ 2 ^ 63 - 1 }
        ensures within { IfOk result (λ n. n ≤ length buf.new) }
        ensures cause { HasCause self.old.disk_faults self.new.disk_faults result }
        ensures counts { CountsFault self.old.disk_faults self.new.disk_faults result }
        ensures say_faults { self.new.say_faults ≡ self.old.say_faults }
        ensures file { IsSameFile self.old self.new }
    {
        match self.read_file(at, buf) {
            Ok(count) => Ok(count),
            Err(_) => Err(self.disk_fault()),
        }
    }

    fn write_at(&mut self, at: u64, content: &[u8]) -> Result<(), Failed>
        requires { at + length content.now ≤ 2 ^ 63 - 1 }
        ensures cause { HasCause self.old.disk_faults self.new.disk_faults result }
        ensures counts { CountsFault self.old.disk_faults self.new.disk_faults result }
        ensures say_faults { self.new.say_faults ≡ self.old.say_faults }
        ensures file { IsSameFile self.old self.new }
    {
        match self.write_file(at, content) {
            Ok(()) => Ok(()),
            Err(_) => Err(self.disk_fault()),
        }
    }

    fn sync(&mut self) -> Result<(), Failed>
        ensures cause { HasCause self.old.disk_faults self.new.disk_faults result }
        ensures counts { CountsFault self.old.disk_faults self.new.disk_faults result }
        ensures say_faults { self.new.say_faults ≡ self.old.say_faults }
        ensures file { IsSameFile self.old self.new }
    {
        match self.sync_file() {
            Ok(()) => Ok(()),
            Err(_) => Err(self.disk_fault()),
        }
    }

    fn say(&mut self, text: &[u8]) -> Result<(), Failed>
        ensures cause { HasCause self.old.say_faults self.new.say_faults result }
        ensures counts { CountsFault self.old.say_faults self.new.say_faults result }
        ensures disk_faults { self.new.disk_faults ≡ self.old.disk_faults }
        ensures file { IsSameFile self.old self.new }
    {
        match self.print(text) {
            Ok(()) => Ok(()),
            Err(_) => {
                self.say_faults = self.say_faults.saturating_add(1);
                Err(Failed)
            }
        }
    }
}

/// Reads until the buffer is full or the file ends, however few bytes a read gives.
pub(crate) fn read_on<F: FileExt>(file: &F, at: u64, buf: &mut [u8]) -> io::Result<usize>
    requires { at + length buf.old ≤ 2 ^ 63 - 1 }
    ensures { IfOk result (λ n. n ≤ length buf.new) }
{
    let mut count = 0;
    while count < buf.len() {
        let more = file.read_at(&mut buf[count..], at + count as u64)?;
        if more == 0 {
            break;
        }
        count += more;
    }
    Ok(count)
}

/// Writes all of the content, however few bytes a write takes. One that takes none is an error.
pub(crate) fn write_on<F: FileExt>(file: &F, at: u64, content: &[u8]) -> io::Result<()>
    requires { at + length content.now ≤ 2 ^ 63 - 1 }
{
    let mut count = 0;
    while count < content.len() {
        let more = file.write_at(&content[count..], at + count as u64)?;
        if more == 0 {
            return Err(io::ErrorKind::WriteZero.into());
        }
        count += more;
    }
    Ok(())
}
