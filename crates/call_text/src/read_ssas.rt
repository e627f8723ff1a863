// Segment search arguments, as they are read.
ghost use Rattle.std.specs.Prelude.{◌≡◌, Some, false, length};
ghost use Rattle.call_text.specs.Words.{begins_with};
ghost use Rattle.call_text.specs.Reading.{Gives, clause_at, connector_at, clause_and_connector_at, clauses_at, codes_at, behind, qualification_at, ssa_at, begins_ssa, ssas_at};

use crate::fault::{Fault, ReadError};
use crate::read_values::{operator_of, value_of};
use crate::words::{begins_blank, begins_word, name_of, past_blanks, past_word, word_of};
use crate::{Clause, Ssa};
use hal_base::{Bytes, List};
use std::alloc::Global;

#[tactic(auto, unfolding(crate::specs::Reading::clause_at))]
fn clause_of(alloc: Global, or: bool, text: &[u8]) -> Result<(Clause, &[u8]), ReadError>
    ensures { Gives (λ x. (x.0, x.1.now)) result (clause_at or text.now) }
{
    let field = name_of(text)?;
    let (op, rest) = operator_of(alloc, past_blanks(past_word(text)))?;
    let (value, rest) = value_of(alloc, past_blanks(rest))?;
    let clause = Clause {
        field,
        op,
        value,
        or,
    };
    Ok((clause, rest))
}

/// Whether an or or an and goes on, or neither where the parenthesis closes.
#[tactic(auto, unfolding(crate::specs::Reading::connector_at))]
fn connector_of(text: &[u8]) -> Result<(Option<bool>, &[u8]), ReadError>
    ensures { Gives (λ x. (x.0, x.1.now)) result (connector_at text.now) }
{
    match text {
        [b')', rest @ ..] => Ok((None, rest)),
        [b'&' | b'*', rest @ ..] => Ok((Some(false), rest)),
        [b'|' | b'+', rest @ ..] => Ok((Some(true), rest)),
        _ => Err(ReadError::Fault(Fault::Form)),
    }
}

#[tactic(auto, unfolding(crate::specs::Reading::clause_and_connector_at))]
fn clause_and_connector_of(
    alloc: Global,
    or: bool,
    text: &[u8],
) -> Result<(Clause, Option<bool>, &[u8]), ReadError>
    ensures { Gives (λ x. (x.0, x.1, x.2.now)) result (clause_and_connector_at or text.now) }
{
    let (clause, rest) = clause_of(alloc, or, past_blanks(text))?;
    let (next, rest) = connector_of(past_blanks(rest))?;
    Ok((clause, next, rest))
}

/// The clauses behind an opening parenthesis, of which there are at most `most`.
fn clauses_of(alloc: Global, most: usize, text: &[u8]) -> Result<(List<Clause>, &[u8]), ReadError>
    ensures { Gives (λ x. (x.0, x.1.now)) result (clauses_at most (Some false) text.now) }
{
    let mut clauses = List::new(alloc);
    let mut next = Some(false);
    let mut rest = text;
    let mut left = most;
    while let Some(or) = next {
        if left == 0 {
            return Err(ReadError::Fault(Fault::Form));
        }
        let (clause, connector, behind) = clause_and_connector_of(alloc, or, rest)?;
        clauses.push(clause)?;
        next = connector;
        rest = behind;
        left -= 1;
    }
    Ok((clauses, rest))
}

#[tactic(auto, unfolding(crate::specs::Reading::codes_at))]
fn codes_of(alloc: Global, text: &[u8]) -> Result<(Bytes, &[u8]), ReadError>
    ensures { Gives (λ x. (x.0, x.1.now)) result (codes_at text.now) }
{
    match text {
        [b'*', rest @ ..] => word_of(alloc, rest),
        _ => Ok((Bytes::new(alloc), text)),
    }
}

#[tactic(auto, unfolding(crate::specs::Reading::qualification_at))]
fn qualification_of(alloc: Global, text: &[u8]) -> Result<(List<Clause>, &[u8]), ReadError>
    ensures { Gives (λ x. (x.0, x.1.now)) result (qualification_at text.now) }
{
    match past_blanks(text) {
        [b'(', rest @ ..] => clauses_of(alloc, text.len(), rest),
        _ => Ok((List::new(alloc), text)),
    }
}

#[tactic(auto, unfolding(crate::specs::Reading::ssa_at))]
fn ssa_of(alloc: Global, text: &[u8]) -> Result<(Ssa, &[u8]), ReadError>
    ensures { Gives (λ x. (x.0, x.1.now)) result (ssa_at text.now) }
{
    let seg = name_of(text)?;
    let (codes, rest) = codes_of(alloc, past_word(text))?;
    let (clauses, rest) = qualification_of(alloc, rest)?;
    let ssa = Ssa {
        seg,
        codes,
        clauses,
    };
    Ok((ssa, rest))
}

fn begins_ssa(text: &[u8]) -> bool
    ensures { result ≡ begins_ssa text.now }
{
    begins_blank(text) && begins_word(past_blanks(text))
}

/// The SSAs at the front, of which there are at most `most`.
pub fn ssas_of(alloc: Global, most: usize, text: &[u8]) -> Result<(List<Ssa>, &[u8]), ReadError>
    ensures { Gives (λ x. (x.0, x.1.now)) result (ssas_at most text.now) }
{
    let mut ssas = List::new(alloc);
    let mut rest = text;
    let mut left = most;
    while left > 0 && begins_ssa(rest) {
        let (ssa, behind) = ssa_of(alloc, past_blanks(rest))?;
        ssas.push(ssa)?;
        rest = behind;
        left -= 1;
    }
    Ok((ssas, rest))
}
