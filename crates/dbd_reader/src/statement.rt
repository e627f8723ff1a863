// Statements of a text.
ghost use Rattle.std.specs.Prelude.{◌≡◌, ◌+◌, ◌<◌, ◌≤◌, ◌^◌, ℕ, List, [], ◌∷◌, length, None, Some, IfOk, IfSome};
ghost use Rattle.std.specs.Option.{option_map_or};
ghost use Rattle.std.specs.Str.Lines.{lines};
ghost use Rattle.dbd_reader.specs.Lines.{IsBehind};
ghost use Rattle.dbd_reader.specs.Statements.{bad_at, begun, goes_on, carried, extended, taken, statements};

use crate::lines::{columns, cut_line, is_comment, is_marked, is_readable};
use crate::word::{comment_of, ends_in_comma, operands_of, past_blanks};
use hal_base::{Bytes, Memory};
use std::alloc::Global;

/// A statement with its continuation lines: the line on which it begins, columns 1 to 71 of its lines, whether
/// column 72 of the last one is marked, its first line with a byte that isn't readable, and the number of
/// the line behind it.
#[derive(Debug, Drop)]
pub struct Statement {
    pub line: u32,
    pub text: Bytes,
    pub marked: bool,
    pub bad: Option<u32>,
    pub next: u32,
}

fn bad_at(number: u32, line: &[u8]) -> Option<u32>
    ensures { result ≡ bad_at number line.now }
{
    if is_readable(line) {
        None
    } else {
        Some(number)
    }
}

#[tactic(auto, unfolding(crate::specs::Statements::begun))]
fn begun(alloc: Global, number: u32, line: &[u8]) -> Result<Statement, Memory>
    requires { number + 1 < 2 ^ 32 }
    ensures whole { IfOk result (λ s. s ≡ begun number line.now) }
    ensures next { IfOk result (λ s. s.next ≡ number + 1) }
{
    Ok(Statement {
        line: number,
        text: Bytes::from_slice(alloc, columns(line, 71))?,
        marked: is_marked(line),
        bad: bad_at(number, line),
        next: number + 1,
    })
}

#[tactic(auto, unfolding(crate::specs::Statements::goes_on))]
fn goes_on(statement: &Statement) -> bool
    ensures { result ≡ goes_on statement.now }
{
    statement.marked || ends_in_comma(operands_of(statement.text.as_slice()))
}

#[tactic(auto, unfolding(crate::specs::Statements::carried))]
fn carried(text: &[u8]) -> &[u8]
    ensures { result.now ≡ carried text.now }
{
    if ends_in_comma(operands_of(text)) {
        &text[..text.len().saturating_sub(comment_of(text).len())]
    } else {
        text
    }
}

#[tactic(auto, unfolding(crate::specs::Statements::extended))]
fn extended(alloc: Global, statement: Statement, line: &[u8]) -> Result<Statement, Memory>
    requires { statement.next + 1 < 2 ^ 32 }
    ensures whole { IfOk result (λ s. s ≡ extended statement line.now) }
    ensures next { IfOk result (λ s. s.next ≡ statement.next + 1) }
{
    let mut text = Bytes::from_slice(alloc, carried(statement.text.as_slice()))?;
    text.append(past_blanks(columns(line, 71)))?;
    Ok(Statement {
        line: statement.line,
        text,
        marked: is_marked(line),
        bad: statement.bad.or(bad_at(statement.next, line)),
        next: statement.next + 1,
    })
}

#[tactic(auto, unfolding(crate::specs::Statements::taken))]
fn taken(alloc: Global, statement: Statement, line: &[u8]) -> Result<Statement, Memory>
    requires { statement.next + 1 < 2 ^ 32 }
    ensures whole { IfOk result (λ s. s ≡ taken statement line.now) }
    ensures next { IfOk result (λ s. s.next ≡ statement.next + 1) }
{
    if is_comment(line) {
        return Ok(Statement {
            next: statement.next + 1,
            ..statement
        });
    }
    extended(alloc, statement, line)
}

/// The statement with the lines on which it goes on, and what stands behind them.
fn continued(alloc: Global, begun: Statement, text: &[u8]) -> Result<(Statement, &[u8]), Memory>
    requires { begun.next + length text.now < 2 ^ 32 }
    ensures whole { IfOk result (λ x. statements begun.next (Some begun) (lines text.now) ≡ x.0 ∷ statements x.0.next None (lines x.1.now)) }
    ensures behind { IfOk result (λ x. (whole : List ℕ) → IsBehind whole begun.next text.now → IsBehind whole x.0.next x.1.now) }
    ensures few { IfOk result (λ x. x.0.next + length x.1.now ≤ begun.next + length text.now) }
    ensures short { IfOk result (λ x. length x.1.now ≤ length text.now) }
{
    let mut statement = begun;
    let mut rest = text;
    while !rest.is_empty() && goes_on(&statement) {
        let (line, behind) = cut_line(rest);
        statement = taken(alloc, statement, line)?;
        rest = behind;
    }
    Ok((statement, rest))
}

/// The next statement, and what stands behind it; none where comments alone are left.
pub fn next_statement(
    alloc: Global,
    number: u32,
    text: &[u8],
) -> Result<Option<(Statement, &[u8])>, Memory>
    requires { number + length text.now < 2 ^ 32 }
    ensures whole { IfOk result (λ next. statements number None (lines text.now) ≡ option_map_or (λ x. x.0 ∷ statements x.0.next None (lines x.1.now)) next []) }
    ensures behind { IfOk result (λ next. IfSome next (λ x. (whole : List ℕ) → IsBehind whole number text.now → IsBehind whole x.0.next x.1.now)) }
    ensures few { IfOk result (λ next. IfSome next (λ x. x.0.next + length x.1.now ≤ number + length text.now)) }
    ensures shorter { IfOk result (λ next. IfSome next (λ x. length x.1.now < length text.now)) }
{
    let mut line = number;
    let mut rest = text;
    while !rest.is_empty() {
        let (first, behind) = cut_line(rest);
        if !is_comment(first) {
            let statement = begun(alloc, line, first)?;
            return Ok(Some(continued(alloc, statement, behind)?));
        }
        line += 1;
        rest = behind;
    }
    Ok(None)
}
