//! Tests that join crates which don't stand on each other: whole commands over sources and sites in memory, and the
//! rules of definitions.
//!
//! - `first_path`: a script over one list, whose source and site may fail; `calls`: scripts of calls, with their replies;
//! - `examples`: the examples of docs/CALLS.md;
//! - `commands`: the table of commands, and `define`;
//! - `definitions`, `schema`: definitions, sound and broken, and the rules that they break.
#![tactic(auto)]

ghost use Rattle.std.specs.Prelude.{◌≡◌, ◌≤◌, ◌⊎◌, IfOk, None, map};
ghost use Rattle.std.specs.String.{string_bytes};
ghost use Rattle.hal_desk.specs.Words.{command_of};

use hal_base::{Bytes, List, Memory};
use hal_desk::run;
use hal_disk::{MemSite, MemSource};
use std::alloc::Global;

/// What a command that was run in memory left.
#[derive(Debug, Drop)]
pub struct Outcome {
    pub status: u8,
    pub said: Bytes,
}

/// Which calls of the outside fail, by their numbers from 1, and how long the source's pieces are at most.
#[derive(Clone, Copy, Debug)]
pub struct Trouble {
    pub piece: usize,
    pub failing_read: u64,
    pub failing_say: u64,
}

/// Nothing fails; the source comes in pieces of 4,096 bytes.
pub const SMOOTH: Trouble = Trouble {
    piece: 4096,
    failing_read: 0,
    failing_say: 0,
};

/// Runs `call V` over a script in memory.
pub fn called(alloc: Global, script: &[u8], trouble: Trouble) -> Result<Outcome, Memory>
    requires { 1 ≤ trouble.piece }
{
    let mut words = Vec::new(alloc);
    words.push(String::from_str(alloc, "call")?)?;
    words.push(String::from_str(alloc, "V")?)?;
    ran(alloc, words.as_slice(), script, trouble)
}

/// Runs a command over a source and a site in memory.
pub fn ran(
    alloc: Global,
    words: &[String],
    script: &[u8],
    trouble: Trouble,
) -> Result<Outcome, Memory>
    requires { 1 ≤ trouble.piece }
    ensures { command_of (map string_bytes words.now) ≡ None → IfOk result (λ outcome. (outcome.status ≡ 1) ⊎ (outcome.status ≡ 6) ⊎ (outcome.status ≡ 8)) }
{
    let mut reads = List::new(alloc);
    reads.push(trouble.failing_read)?;
    let mut says = List::new(alloc);
    says.push(trouble.failing_say)?;
    let mut source = MemSource::new(Bytes::from_slice(alloc, script)?, trouble.piece, reads);
    let site = MemSite::new(alloc, Bytes::new(alloc), says);
    let ended = run(alloc, words, &mut source, site);
    Ok(Outcome {
        status: ended.status,
        said: Bytes::from_slice(alloc, ended.site.said())?,
    })
}

#[cfg(test)]
mod calls;
#[cfg(test)]
mod commands;
#[cfg(test)]
mod definitions;
#[cfg(test)]
mod examples;
#[cfg(test)]
mod first_path;
#[cfg(test)]
mod schema;
