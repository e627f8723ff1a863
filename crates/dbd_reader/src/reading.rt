// The whole text.
ghost use Rattle.std.specs.Prelude.{◌≡◌, ◌+◌, ◌-◌, ◌<◌, ◌≤◌, ◌^◌, length, IfOk, IsTrue};
ghost use Rattle.hal_schema.specs.Named.{dbd_is_named};
ghost use Rattle.std.specs.Str.Lines.{lines};
ghost use Rattle.dbd_reader.specs.Words.{word_of};
ghost use Rattle.dbd_reader.specs.Reading.{Gives};
ghost use Rattle.dbd_reader.specs.Definition.{worded, is_bad_at, or_bad, judged, meaning_of};
ghost use Rattle.hal_schema.specs.Reading.{Says};

use crate::draft::{Draft, step};
use crate::fault::ReadError;
use crate::lines::cut_line;
use crate::operand::operands_in;
use crate::statement::{Statement, next_statement};
use crate::word::{Word, operands_of, word_of};
use hal_schema::{RawDbd, TextFault};
use std::alloc::Global;

#[tactic(auto, unfolding(crate::specs::Definition::worded))]
fn worded(
    alloc: Global,
    draft: Draft,
    statement: &Statement,
    word: Option<Word>,
) -> Result<Draft, ReadError>
    ensures { Gives (λ x. x) result (worded draft statement.now word) }
{
    match word {
        None => Err(ReadError::Rule(14)),
        Some(Word::Passed) => Ok(draft),
        Some(word) => {
            let operands = operands_in(alloc, word, operands_of(statement.text.as_slice()))?;
            step(alloc, draft, word, statement.line, operands.as_slice())
        }
    }
}

fn is_bad_at(line: u32, bad: Option<u32>) -> bool
    ensures { result ≡ is_bad_at line bad }
{
    match bad {
        Some(bad) => bad == line,
        None => false,
    }
}

fn or_bad(bad: Option<u32>, draft: Draft) -> Result<Draft, TextFault>
    ensures { result ≡ or_bad bad draft }
{
    match bad {
        Some(line) => Err(TextFault::Rule { rule: 13, line }),
        None => Ok(draft),
    }
}

#[tactic(auto, unfolding(crate::specs::Definition::judged))]
fn judged(alloc: Global, draft: Draft, statement: &Statement) -> Result<Draft, TextFault>
    ensures { Says result (judged draft statement.now) }
{
    let line = statement.line;
    if is_bad_at(line, statement.bad) {
        return Err(TextFault::Rule { rule: 13, line });
    }
    let word = word_of(statement.text.as_slice());
    match worded(alloc, draft, statement, word) {
        Ok(draft) => or_bad(statement.bad, draft),
        Err(ReadError::Rule(rule)) => Err(TextFault::Rule { rule, line }),
        Err(ReadError::Memory) => Err(TextFault::Memory),
    }
}

/// The number of the line behind the last one.
fn line_behind(text: &[u8]) -> u32
    requires { length text.now < 2 ^ 32 - 1 }
    ensures { result ≡ length (lines text.now) + 1 }
{
    let mut line = 1;
    let mut rest = text;
    while !rest.is_empty() {
        rest = cut_line(rest).1;
        line += 1;
    }
    line
}

/// One statement after the other, up to END.
fn read_text(alloc: Global, text: &[u8]) -> Result<(RawDbd, usize), TextFault>
    requires { length text.now < 2 ^ 32 - 1 }
    ensures { Says result (meaning_of text.now) }
{
    let mut draft = Draft::Start;
    let mut line = 1;
    let mut rest = text;
    while let Some((statement, behind)) = next_statement(alloc, line, rest)? {
        line = statement.next;
        rest = behind;
        match judged(alloc, draft, &statement)? {
            Draft::Ended(dbd) => return Ok((dbd, text.len() - rest.len())),
            next => draft = next,
        }
    }
    Err(TextFault::Rule {
        rule: 19,
        line: line_behind(text),
    })
}

/// Reads a database definition, DBD source up to and with its END line: the raw definition, whose own rules
/// aren't looked at yet, and where the text behind that line begins.
///
/// A text that breaks a rule of statements and operands (13 to 19) is refused with the first line that does.
pub fn read_dbd(alloc: Global, text: &[u8]) -> Result<(RawDbd, usize), TextFault>
    requires { length text.now < 2 ^ 32 - 1 }
    ensures says { Says result (meaning_of text.now) }
    // What a text says has a type and plain names, and the text behind is a part of it.
    ensures types { IfOk result (λ read. 0 < length read.0.types) }
    ensures named { IfOk result (λ read. IsTrue (dbd_is_named read.0)) }
    ensures within { IfOk result (λ read. read.1 ≤ length text.now) }
{
    read_text(alloc, text)
}
