// The words of a command line.
ghost use Rattle.std.specs.Prelude.{◌≡◌, IfOk, IsTrue, length, map, min};
ghost use Rattle.std.specs.List.{list_all};
ghost use Rattle.std.specs.String.{string_bytes};

use crate::grammar::parse;
use clap::ArgMatches;
use hal_base::{Bytes, Memory, are_digits, number_of};
use std::alloc::Global;

/// What the words ask for.
#[derive(Debug, Drop)]
pub enum Command {
    /// Defines a volume by the texts of the source.
    Define {
        volume: Bytes,
    },
    /// Loads the rows of the source.
    Load {
        volume: Bytes,
    },
    /// Writes all rows.
    Unload {
        volume: Bytes,
    },
    /// Answers the script of the source.
    Call {
        volume: Bytes,
    },
    /// Says how each partition stands.
    Report {
        volume: Bytes,
    },
    /// Reorganizes one partition to its end. IMS: online reorganization.
    Reorg {
        volume: Bytes,
        part: Bytes,
    },
    /// Defines and loads a made database of so many customers.
    Make {
        volume: Bytes,
        count: u32,
        number: u32,
    },
    /// The same, and then answers a made script.
    Exercise {
        volume: Bytes,
        count: u32,
        number: u32,
    },
}

ghost use Rattle.clap.specs.Words.{found_of, rows_of, subcommand_rows_of};
ghost use Rattle.hal_desk.specs.Grammar.{command_in, command_of_row};
ghost use Rattle.hal_desk.specs.Words.{command_of, is_word, number_within, of_count, of_part, of_volume};

/// Reads the words after the program's name: none where they are no command.
pub fn read_command(alloc: Global, words: &[String]) -> Result<Option<Command>, Memory>
    ensures { IfOk result (λ command. command ≡ command_of (map string_bytes words.now)) }
{
    if !are_words(words) {
        return Ok(None);
    }
    match parse(alloc, words) {
        Ok(Some(matches)) => of_matches(alloc, &matches),
        Ok(None) => Ok(None),
        Err(Memory) => Err(Memory),
    }
}

fn of_matches(alloc: Global, matches: &ArgMatches<'_>) -> Result<Option<Command>, Memory>
    ensures { IfOk result (λ command. command ≡ command_in (subcommand_rows_of matches.now)) }
{
    match matches.subcommand() {
        Some((name, row)) => of_row(alloc, name.as_bytes(), row),
        None => Ok(None),
    }
}

fn of_row(alloc: Global, name: &[u8], row: &ArgMatches<'_>) -> Result<Option<Command>, Memory>
    ensures { IfOk result (λ command. command ≡ command_of_row name.now (rows_of (found_of row.now))) }
{
    let Some(volume) = row.get_str("volume") else {
        return Ok(None);
    };
    if let Some(part) = row.get_str("part") {
        return of_part(alloc, name, volume.as_bytes(), part.as_bytes());
    }
    let Some(count) = row.get_str("count") else {
        return of_volume(alloc, name, volume.as_bytes());
    };
    let Some(number) = row.get_str("number") else {
        return Ok(None);
    };
    let count = number_within(1, 10_000, count.as_bytes());
    let number = number_within(0, 4_294_967_295, number.as_bytes());
    of_count(alloc, name, volume.as_bytes(), count, number)
}

fn are_words(words: &[String]) -> bool
    ensures { result ≡ list_all is_word (map string_bytes words.now) }
{
    for word in words {
        if !is_word(word.as_bytes()) {
            return false;
        }
    }
    true
}

fn is_word(word: &[u8]) -> bool
    ensures { result ≡ is_word word.now }
{
    match word {
        [] => false,
        [first, ..] => !(*first == b'-' || *first == b'+'),
    }
}

fn of_volume(alloc: Global, name: &[u8], volume: &[u8]) -> Result<Option<Command>, Memory>
    ensures { IfOk result (λ command. command ≡ of_volume name.now volume.now) }
{
    let volume = Bytes::from_slice(alloc, volume)?;
    Ok(if name == b"define".as_slice() {
        Some(Command::Define { volume })
    } else if name == b"load".as_slice() {
        Some(Command::Load { volume })
    } else if name == b"unload".as_slice() {
        Some(Command::Unload { volume })
    } else if name == b"call".as_slice() {
        Some(Command::Call { volume })
    } else if name == b"report".as_slice() {
        Some(Command::Report { volume })
    } else {
        None
    })
}

fn of_part(
    alloc: Global,
    name: &[u8],
    volume: &[u8],
    part: &[u8],
) -> Result<Option<Command>, Memory>
    ensures { IfOk result (λ command. command ≡ of_part name.now volume.now part.now) }
{
    if name != b"reorg".as_slice() {
        return Ok(None);
    }
    let volume = Bytes::from_slice(alloc, volume)?;
    let part = Bytes::from_slice(alloc, part)?;
    Ok(Some(Command::Reorg { volume, part }))
}

fn of_count(
    alloc: Global,
    name: &[u8],
    volume: &[u8],
    count: Option<u32>,
    number: Option<u32>,
) -> Result<Option<Command>, Memory>
    ensures { IfOk result (λ command. command ≡ of_count name.now volume.now count number) }
{
    let (Some(count), Some(number)) = (count, number) else {
        return Ok(None);
    };
    let volume = Bytes::from_slice(alloc, volume)?;
    Ok(if name == b"make".as_slice() {
        Some(Command::Make {
            volume,
            count,
            number,
        })
    } else if name == b"exercise".as_slice() {
        Some(Command::Exercise {
            volume,
            count,
            number,
        })
    } else {
        None
    })
}

/// A number from the least to the most, written by 1 to 10 digits.
fn number_within(least: u32, most: u32, word: &[u8]) -> Option<u32>
    ensures { result ≡ number_within least most word.now }
{
    if word.is_empty() || word.len() > 10 || !are_digits(word) {
        return None;
    }
    let value = number_of(word);
    if u64::from(least) <= value && value <= u64::from(most) {
        Some(value as u32)
    } else {
        None
    }
}
