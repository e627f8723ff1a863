// Lines, as they are read.
ghost use Rattle.hal_base.specs.Bytes.{is_printable};
ghost use Rattle.std.specs.Prelude.{◌≡◌, ℕ, List, IfOk, length};
ghost use Rattle.std.specs.List.{list_all};
ghost use Rattle.call_text.specs.Printed.{HasForm};
ghost use Rattle.call_text.specs.Words.{past, in_word, is_reserved, is_silent};
ghost use Rattle.call_text.specs.declared.line.Line.{Line};
ghost use Rattle.call_text.specs.Spelling.{Spells};
ghost use Rattle.call_text.specs.Faults.{IsBadBy, IsCaused};
ghost use Rattle.call_text.specs.Reading.{Gives, given_at, call_at, session_at, index_at, open_at, plain_command, command_at, reorg_at, form_at, cause_of, line_of};

use crate::fault::{Fault, ReadError};
use crate::read_ssas::ssas_of;
use crate::read_values::value_of;
use crate::words::{count_of, is_end, name_of, past_blanks, past_word, word_of};
use crate::{Call, Command, Line, Open, Value};
use hal_base::{Memory, Name8, are_printable};
use std::alloc::Global;

/// A line's most bytes, without its end.
const LONGEST: usize = 8192;

#[tactic(auto, unfolding(crate::specs::Reading::given_at))]
fn given_of(alloc: Global, text: &[u8]) -> Result<Option<Value>, ReadError>
    ensures { Gives (λ x. x) result (given_at text.now) }
{
    match text {
        [] => Ok(None),
        [b':', rest @ ..] => {
            let (value, rest) = value_of(alloc, past_blanks(rest))?;
            if !is_end(rest) {
                return Err(ReadError::Fault(Fault::Form));
            }
            Ok(Some(value))
        }
        _ => Err(ReadError::Fault(Fault::Form)),
    }
}

#[tactic(auto, unfolding(crate::specs::Reading::call_at))]
fn call_of(alloc: Global, session: Name8, text: &[u8]) -> Result<Line, ReadError>
    ensures { Gives (λ x. x) result (call_at session text.now) }
{
    let (func, rest) = word_of(alloc, past_blanks(text))?;
    let (ssas, rest) = ssas_of(alloc, rest.len(), rest)?;
    let content = given_of(alloc, past_blanks(rest))?;
    Ok(Line::Call(Call {
        session,
        func,
        ssas,
        content,
    }))
}

fn is_reserved(name: &[u8]) -> bool
    ensures { result ≡ is_reserved name.now }
{
    name == b"PCB".as_slice() || name == b"REORG".as_slice()
}

#[tactic(auto, unfolding(crate::specs::Reading::session_at))]
fn session_of(text: &[u8]) -> Result<Name8, ReadError>
    ensures { Gives (λ name. (name, past in_word text.now)) result (session_at text.now) }
{
    let name = name_of(text)?;
    if is_reserved(name.as_slice()) {
        return Err(ReadError::Fault(Fault::Form));
    }
    Ok(name)
}

#[tactic(auto, unfolding(crate::specs::Reading::index_at))]
fn index_of(text: &[u8]) -> Result<Option<Name8>, ReadError>
    ensures { Gives (λ x. x) result (index_at text.now) }
{
    if text.is_empty() {
        return Ok(None);
    }
    let name = name_of(text)?;
    if !is_end(past_word(text)) {
        return Err(ReadError::Fault(Fault::Form));
    }
    Ok(Some(name))
}

#[tactic(auto, unfolding(crate::specs::Reading::open_at))]
fn open_of(alloc: Global, text: &[u8]) -> Result<Line, ReadError>
    ensures { Gives (λ x. x) result (open_at text.now) }
{
    let text = past_blanks(text);
    let session = session_of(text)?;
    let (options, rest) = word_of(alloc, past_blanks(past_word(text)))?;
    let index = index_of(past_blanks(rest))?;
    Ok(Line::Open(Open {
        session,
        options,
        index,
    }))
}

fn plain_command(word: &[u8]) -> Option<Command>
    ensures { result ≡ plain_command word.now }
{
    if word == b"START".as_slice() {
        Some(Command::Start)
    } else if word == b"PAUSE".as_slice() {
        Some(Command::Pause)
    } else if word == b"RESUME".as_slice() {
        Some(Command::Resume)
    } else if word == b"FINISH".as_slice() {
        Some(Command::Finish)
    } else if word == b"QUERY".as_slice() {
        Some(Command::Query)
    } else {
        None
    }
}

#[tactic(auto, unfolding(crate::specs::Reading::command_at))]
fn command_of<'a>(word: &[u8], text: &'a [u8]) -> Result<(Command, &'a [u8]), ReadError>
    ensures { Gives (λ x. (x.0, x.1.now)) result (command_at word.now text.now) }
{
    if word == b"STEP".as_slice() {
        let (groups, rest) = count_of(past_blanks(text))?;
        return Ok((Command::Step(groups), rest));
    }
    match plain_command(word) {
        Some(command) => Ok((command, text)),
        None => Err(ReadError::Fault(Fault::Form)),
    }
}

#[tactic(auto, unfolding(crate::specs::Reading::reorg_at))]
fn reorg_of(text: &[u8]) -> Result<Line, ReadError>
    ensures { Gives (λ x. x) result (reorg_at text.now) }
{
    let text = past_blanks(text);
    let word = name_of(text)?;
    let text = past_blanks(past_word(text));
    let part = name_of(text)?;
    let (command, rest) = command_of(word.as_slice(), past_word(text))?;
    if !is_end(rest) {
        return Err(ReadError::Fault(Fault::Form));
    }
    Ok(Line::Reorg { part, command })
}

#[tactic(auto, unfolding(crate::specs::Reading::form_at))]
fn form_of(alloc: Global, text: &[u8]) -> Result<Line, ReadError>
    ensures { Gives (λ x. x) result (form_at text.now) }
{
    let text = past_blanks(text);
    let first = name_of(text)?;
    let rest = past_word(text);
    if first.as_slice() == b"PCB".as_slice() {
        return open_of(alloc, rest);
    }
    if first.as_slice() == b"REORG".as_slice() {
        return reorg_of(rest);
    }
    call_of(alloc, first, rest)
}

fn is_silent(text: &[u8]) -> bool
    ensures { result ≡ is_silent text.now }
{
    is_end(text) || matches!(text, [b'*', ..])
}

fn cause_of(fault: Fault) -> u8
    ensures { result ≡ cause_of fault }
{
    match fault {
        Fault::Form => 3,
        Fault::Value => 4,
        Fault::Count => 5,
    }
}

#[tactic(auto, unfolding(crate::specs::Reading::line_of))]
fn read(alloc: Global, line: &[u8]) -> Result<Line, Memory>
    ensures { IfOk result (λ read. read ≡ line_of line.now) }
{
    if is_silent(line) {
        return Ok(Line::Silent);
    }
    if line.len() > LONGEST {
        return Ok(Line::Bad(1));
    }
    if !are_printable(line) {
        return Ok(Line::Bad(2));
    }
    match form_of(alloc, line) {
        Ok(form) => Ok(form),
        Err(ReadError::Fault(fault)) => Ok(Line::Bad(cause_of(fault))),
        Err(ReadError::Memory) => Err(Memory),
    }
}

/// Reads a line of a script, without its end. Each text is one line: silent, a form, or bad with its cause. Which
/// one, `line_of` says from left to right, so that a caller can compute it of a text.
pub fn read_line(alloc: Global, line: &[u8]) -> Result<Line, Memory>
    // What is read is spelled so.
    ensures found { IfOk result (λ read. HasForm read → Spells line.now read) }
    // What is spelled so is read.
    ensures only { (form : Line) → Spells line.now form → IfOk result (λ read. read ≡ form) }
    // Which cause it is, where the text spells no line.
    ensures cause { IfOk result (λ read. IsCaused line.now read) }
    // Which line each text is.
    ensures each { IfOk result (λ read. read ≡ line_of line.now) }
{
    read(alloc, line)
}

/// The line of a text is what the text spells, or a bad line with the cause of its first fault.
pub fn lines_are_spelled()
    ensures found { (text : List ℕ) → HasForm (line_of text) → Spells text (line_of text) }
    ensures only { (text : List ℕ) (form : Line) → Spells text form → line_of text ≡ form }
    ensures cause { (text : List ℕ) → IsCaused text (line_of text) }
{}

/// A text spells one line at most.
pub fn one_reading()
    ensures { (text : List ℕ) (first second : Line) → Spells text first → Spells text second → first ≡ second }
{}

/// A line has one cause at most.
pub fn one_cause()
    ensures { (text : List ℕ) (first second : ℕ) → IsBadBy text first → IsBadBy text second → first ≡ second }
{}
