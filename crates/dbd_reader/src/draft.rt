// The statements in their order.
ghost use Rattle.std.specs.Prelude.{◌≡◌, IfOk};
ghost use Rattle.dbd_reader.specs.Reading.{Gives};
ghost use Rattle.dbd_reader.specs.Definition.{with_type, with_index, with_field, at_start, at_head, at_segment, at_index, at_end, at_finish, step};

use crate::fault::ReadError;
use crate::meaning::{dbd_of, field_of, lchild_of, segm_of, xdfld_of};
use crate::operand::Operand;
use crate::value::Child;
use crate::verdict::checked;
use crate::word::Word;
use hal_base::Memory;
use hal_schema::{RawDbd, RawField, RawIndex, RawType};
use std::alloc::Global;

/// What the statements so far say, which decides on those that may come next.
#[derive(Debug, Drop)]
pub enum Draft {
    Start,
    /// Behind DBD.
    Head(RawDbd),
    /// In a segment, which isn't among the types yet.
    Segment(RawDbd, RawType),
    /// Behind an LCHILD, with its line.
    Index(RawDbd, RawType, Child, u32),
    /// Behind DBDGEN.
    Generated(RawDbd),
    /// Behind FINISH.
    Finished(RawDbd),
    /// Behind END.
    Ended(RawDbd),
}

fn with_type(dbd: RawDbd, segm: RawType) -> Result<RawDbd, Memory>
    ensures { IfOk result (λ d. d ≡ with_type dbd segm) }
{
    let mut dbd = dbd;
    dbd.types.push(segm)?;
    Ok(dbd)
}

fn with_index(dbd: RawDbd, index: RawIndex) -> Result<RawDbd, Memory>
    ensures { IfOk result (λ d. d ≡ with_index dbd index) }
{
    let mut dbd = dbd;
    dbd.indexes.push(index)?;
    Ok(dbd)
}

fn with_field(segm: RawType, field: RawField) -> Result<RawType, Memory>
    ensures { IfOk result (λ s. s ≡ with_field segm field) }
{
    let mut segm = segm;
    segm.fields.push(field)?;
    Ok(segm)
}

#[tactic(auto, unfolding(crate::specs::Definition::at_start))]
fn at_start(alloc: Global, word: Word, operands: &[Operand]) -> Result<Draft, ReadError>
    ensures { Gives (λ x. x) result (at_start word operands.now) }
{
    match word {
        Word::Dbd => Ok(Draft::Head(dbd_of(alloc, operands)?)),
        _ => Err(ReadError::Rule(14)),
    }
}

#[tactic(auto, unfolding(crate::specs::Definition::at_head))]
fn at_head(
    alloc: Global,
    dbd: RawDbd,
    word: Word,
    line: u32,
    operands: &[Operand],
) -> Result<Draft, ReadError>
    ensures { Gives (λ x. x) result (at_head dbd word line operands.now) }
{
    match word {
        Word::Dataset => Ok(Draft::Head(dbd)),
        Word::Segm => {
            let segm = segm_of(alloc, line, operands)?;
            Ok(Draft::Segment(dbd, segm))
        }
        _ => Err(ReadError::Rule(14)),
    }
}

#[tactic(auto, unfolding(crate::specs::Definition::at_segment))]
fn at_segment(
    alloc: Global,
    dbd: RawDbd,
    segm: RawType,
    word: Word,
    line: u32,
    operands: &[Operand],
) -> Result<Draft, ReadError>
    ensures { Gives (λ x. x) result (at_segment dbd segm word line operands.now) }
{
    match word {
        Word::Dataset => Ok(Draft::Segment(dbd, segm)),
        Word::Segm => {
            let next = segm_of(alloc, line, operands)?;
            let dbd = with_type(dbd, segm)?;
            Ok(Draft::Segment(dbd, next))
        }
        Word::Field => {
            let field = field_of(alloc, line, operands)?;
            let segm = with_field(segm, field)?;
            Ok(Draft::Segment(dbd, segm))
        }
        Word::Lchild => {
            let child = lchild_of(alloc, operands)?;
            Ok(Draft::Index(dbd, segm, child, line))
        }
        Word::Dbdgen => {
            checked(alloc, Word::Dbdgen, operands)?;
            let dbd = with_type(dbd, segm)?;
            Ok(Draft::Generated(dbd))
        }
        _ => Err(ReadError::Rule(14)),
    }
}

#[tactic(auto, unfolding(crate::specs::Definition::at_index))]
fn at_index(
    alloc: Global,
    dbd: RawDbd,
    segm: RawType,
    child: Child,
    line: u32,
    word: Word,
    operands: &[Operand],
) -> Result<Draft, ReadError>
    ensures { Gives (λ x. x) result (at_index dbd segm child line word operands.now) }
{
    match word {
        Word::Dataset => Ok(Draft::Index(dbd, segm, child, line)),
        Word::Xdfld => {
            let index = xdfld_of(alloc, line, child, segm.name, operands)?;
            let dbd = with_index(dbd, index)?;
            Ok(Draft::Segment(dbd, segm))
        }
        _ => Err(ReadError::Rule(14)),
    }
}

#[tactic(auto, unfolding(crate::specs::Definition::at_end))]
fn at_end(alloc: Global, dbd: RawDbd, word: Word, operands: &[Operand]) -> Result<Draft, ReadError>
    ensures { Gives (λ x. x) result (at_end dbd word operands.now) }
{
    match word {
        Word::Finish => {
            checked(alloc, Word::Finish, operands)?;
            Ok(Draft::Finished(dbd))
        }
        Word::End => {
            checked(alloc, Word::End, operands)?;
            Ok(Draft::Ended(dbd))
        }
        _ => Err(ReadError::Rule(14)),
    }
}

#[tactic(auto, unfolding(crate::specs::Definition::at_finish))]
fn at_finish(
    alloc: Global,
    dbd: RawDbd,
    word: Word,
    operands: &[Operand],
) -> Result<Draft, ReadError>
    ensures { Gives (λ x. x) result (at_finish dbd word operands.now) }
{
    match word {
        Word::End => {
            checked(alloc, Word::End, operands)?;
            Ok(Draft::Ended(dbd))
        }
        _ => Err(ReadError::Rule(14)),
    }
}

/// What a statement adds to a draft, where it may come next.
#[tactic(auto, unfolding(crate::specs::Definition::step))]
pub fn step(
    alloc: Global,
    draft: Draft,
    word: Word,
    line: u32,
    operands: &[Operand],
) -> Result<Draft, ReadError>
    ensures { Gives (λ x. x) result (step draft word line operands.now) }
{
    match draft {
        Draft::Start => at_start(alloc, word, operands),
        Draft::Head(dbd) => at_head(alloc, dbd, word, line, operands),
        Draft::Segment(dbd, segm) => at_segment(alloc, dbd, segm, word, line, operands),
        Draft::Index(dbd, segm, child, at) => {
            at_index(alloc, dbd, segm, child, at, word, operands)
        }
        Draft::Generated(dbd) => at_end(alloc, dbd, word, operands),
        Draft::Finished(dbd) => at_finish(alloc, dbd, word, operands),
        Draft::Ended(_) => Err(ReadError::Rule(14)),
    }
}
