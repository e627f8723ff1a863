// The words as clap reads them: one level of subcommands with positional words.
ghost use Rattle.std.specs.Prelude.{◌≡◌, IfOk, false, map};
ghost use Rattle.std.specs.String.{string_bytes};
ghost use Rattle.clap.specs.Words.{app_of, rule_of, shape_of, with_subcommand};
ghost use Rattle.hal_desk.specs.Grammar.{HasParsed, count_row, grammar, part_row, required, volume_row};

use clap::error::ErrorKind;
use clap::{Arg, ArgMatches, Command};
use hal_base::Memory;
use std::alloc::{AllocError, Global};

/// Parses the words: none where they don't fit the grammar.
pub(crate) fn parse<'a>(
    alloc: Global,
    words: &'a [String],
) -> Result<Option<ArgMatches<'a>>, Memory>
    ensures { IfOk result (HasParsed (map string_bytes words.entry.now)) }
{
    let grammar = match grammar(alloc) {
        Ok(grammar) => grammar,
        Err(_) => return Err(Memory),
    };
    match grammar.try_get_matches_from(words) {
        Ok(matches) => Ok(Some(matches)),
        Err(error) => match error.kind() {
            ErrorKind::OutOfMemory => Err(Memory),
            _ => Ok(None),
        },
    }
}

fn grammar<'a>(alloc: Global) -> Result<Command<'a>, AllocError>
    ensures { IfOk result (λ command. app_of command ≡ grammar) }
{
    let mut command = Command::new(alloc, "haldb")
        .no_binary_name(true)
        .disable_help_flag(true)
        .disable_help_subcommand(true)
        .subcommand_required(true);
    command = with_volume(alloc, command, "define")?;
    command = with_volume(alloc, command, "load")?;
    command = with_volume(alloc, command, "unload")?;
    command = with_volume(alloc, command, "call")?;
    command = with_volume(alloc, command, "report")?;
    command = with_part(alloc, command, "reorg")?;
    command = with_count(alloc, command, "make")?;
    with_count(alloc, command, "exercise")
}

fn with_volume<'a>(
    alloc: Global,
    command: Command<'a>,
    name: &'a str,
) -> Result<Command<'a>, AllocError>
    ensures { IfOk result (λ r. app_of r ≡ with_subcommand (app_of command.entry) (volume_row name.entry.now)) }
{
    let row = Command::new(alloc, name);
    let row = row.arg(required(alloc, "volume"))?;
    command.subcommand(row)
}

fn with_part<'a>(
    alloc: Global,
    command: Command<'a>,
    name: &'a str,
) -> Result<Command<'a>, AllocError>
    ensures { IfOk result (λ r. app_of r ≡ with_subcommand (app_of command.entry) (part_row name.entry.now)) }
{
    let row = Command::new(alloc, name);
    let row = row.arg(required(alloc, "volume"))?;
    let row = row.arg(required(alloc, "part"))?;
    command.subcommand(row)
}

fn with_count<'a>(
    alloc: Global,
    command: Command<'a>,
    name: &'a str,
) -> Result<Command<'a>, AllocError>
    ensures { IfOk result (λ r. app_of r ≡ with_subcommand (app_of command.entry) (count_row name.entry.now)) }
{
    let row = Command::new(alloc, name);
    let row = row.arg(required(alloc, "volume"))?;
    let row = row.arg(required(alloc, "count"))?;
    let row = row.arg(required(alloc, "number"))?;
    command.subcommand(row)
}

/// A word that has to be there, by its place.
fn required<'a>(alloc: Global, name: &'a str) -> Arg<'a>
    ensures { (rule_of result ≡ required name.entry.now) × (result.global ≡ false) }
{
    Arg::new(alloc, name).required(true)
}
