//! The program: the words of its command line, standard input and a file go to the top call, and its status is the
//! program's.
#![tactic(auto)]

use hal_base::Bytes;
use hal_desk::{makes_file, path_of, run};
use hal_disk::{FileSite, InputSource};
use std::process::ExitCode;
use std::{env, io};

/// The status where no memory was to be had.
const OUT_OF_MEMORY: u8 = 8;

fn main(rt: HostRuntime) -> ExitCode {
    match status(&rt) {
        Ok(status) => ExitCode::from(status),
        Err(_) => ExitCode::from(OUT_OF_MEMORY),
    }
}

/// Runs the command that the words after the program's name say. Words that aren't UTF-8 are no command.
fn status(rt: &HostRuntime) -> io::Result<u8> {
    let alloc = rt.alloc();
    let words: Vec<String> = match env::args(rt) {
        Ok(words) => words.skip(1).collect(alloc)?,
        Err(fault) if fault.kind() == io::ErrorKind::InvalidData => Vec::new(alloc),
        Err(fault) => return Err(fault),
    };
    let path = match Bytes::from_slice(alloc, path_of(&words)) {
        Ok(path) => path,
        Err(_) => return Ok(OUT_OF_MEMORY),
    };
    let site = FileSite::new(rt.clone()?, path, makes_file(&words));
    let mut source = InputSource::new(rt.clone()?);
    let ended = run(alloc, words.as_slice(), &mut source, site);
    Ok(ended.status)
}
