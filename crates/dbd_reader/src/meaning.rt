// What each statement says.
ghost use Rattle.std.specs.Prelude.{◌≡◌, map, None, Some, codes};
ghost use Rattle.dbd_reader.specs.Reading.{Gives};
ghost use Rattle.dbd_reader.specs.Operands.{value_of};
ghost use Rattle.dbd_reader.specs.Meanings.{needed, rmname_or_none, dbd_of, parent_or_none, first_or_last, letter_or_a, segm_of, field_of, lchild_of, source_or, fields_or_none, xdfld_of};

use crate::fault::ReadError;
use crate::field_value::{child_value, fields_value, index_value, keyed_value, search_value};
use crate::operand::{Operand, value_of};
use crate::segm_value::{bytes_value, letter_value, parent_value, rules_value};
use crate::value::{Child, RmName, access_value, name_value, number_value, rmname_value};
use crate::verdict::checked;
use crate::word::Word;
use hal_base::{List, Name8};
use hal_schema::{RawDbd, RawField, RawIndex, RawType};
use std::alloc::Global;

/// The value of an operand that the statement needs.
#[tactic(auto, unfolding(crate::specs::Meanings::needed))]
fn needed<'a>(key: &[u8], operands: &'a [Operand]) -> Result<&'a [u8], ReadError>
    ensures { Gives (λ x. x.now) result (needed key.now operands.now) }
{
    match value_of(key, operands) {
        Some(value) => Ok(value),
        None => Err(ReadError::Rule(16)),
    }
}

fn rmname_or_none(alloc: Global, operands: &[Operand]) -> Result<Option<RmName>, ReadError>
    ensures { Gives (λ x. x) result (rmname_or_none (value_of (codes "RMNAME") operands.now)) }
{
    match value_of(b"RMNAME", operands) {
        Some(value) => {
            let rm = rmname_value(alloc, value)?;
            Ok(Some(rm))
        }
        None => Ok(None),
    }
}

/// A DBD statement.
#[tactic(auto, unfolding(crate::specs::Meanings::dbd_of))]
pub fn dbd_of(alloc: Global, operands: &[Operand]) -> Result<RawDbd, ReadError>
    ensures { Gives (λ x. x) result (dbd_of operands.now) }
{
    checked(alloc, Word::Dbd, operands)?;
    let name = name_value(needed(b"NAME", operands)?)?;
    let phdam = access_value(alloc, needed(b"ACCESS", operands)?)?;
    let rm = rmname_or_none(alloc, operands)?;
    Ok(RawDbd {
        name,
        phdam,
        rm: rm.map(|r| r.module_name),
        anch: rm.map_or(1, |r| r.anch),
        rbn: rm.map_or(1, |r| r.rbn),
        types: List::new(alloc),
        indexes: List::new(alloc),
    })
}

fn parent_or_none(alloc: Global, operands: &[Operand]) -> Result<Option<Name8>, ReadError>
    ensures { Gives (λ x. x) result (parent_or_none (value_of (codes "PARENT") operands.now)) }
{
    match value_of(b"PARENT", operands) {
        Some(value) => parent_value(alloc, value),
        None => Ok(None),
    }
}

fn first_or_last(alloc: Global, operands: &[Operand]) -> Result<bool, ReadError>
    ensures { Gives (λ x. x) result (first_or_last (value_of (codes "RULES") operands.now)) }
{
    match value_of(b"RULES", operands) {
        Some(value) => rules_value(alloc, value),
        None => Ok(false),
    }
}

fn letter_or_a(operands: &[Operand]) -> Result<u8, ReadError>
    ensures { Gives (λ x. x) result (letter_or_a (value_of (codes "DSGROUP") operands.now)) }
{
    match value_of(b"DSGROUP", operands) {
        Some(value) => letter_value(value),
        None => Ok(b'A'),
    }
}

/// A SEGM statement.
#[tactic(auto, unfolding(crate::specs::Meanings::segm_of))]
pub fn segm_of(alloc: Global, line: u32, operands: &[Operand]) -> Result<RawType, ReadError>
    ensures { Gives (λ x. x) result (segm_of line operands.now) }
{
    checked(alloc, Word::Segm, operands)?;
    let name = name_value(needed(b"NAME", operands)?)?;
    let bytes = bytes_value(alloc, needed(b"BYTES", operands)?)?;
    let parent = parent_or_none(alloc, operands)?;
    let first = first_or_last(alloc, operands)?;
    let letter = letter_or_a(operands)?;
    Ok(RawType {
        name,
        parent,
        bytes,
        first,
        letter,
        fields: List::new(alloc),
        line,
    })
}

/// A FIELD statement.
#[tactic(auto, unfolding(crate::specs::Meanings::field_of))]
pub fn field_of(alloc: Global, line: u32, operands: &[Operand]) -> Result<RawField, ReadError>
    ensures { Gives (λ x. x) result (field_of line operands.now) }
{
    checked(alloc, Word::Field, operands)?;
    let keyed = keyed_value(alloc, needed(b"NAME", operands)?)?;
    let start = number_value(needed(b"START", operands)?)?;
    let bytes = number_value(needed(b"BYTES", operands)?)?;
    Ok(RawField {
        name: keyed.name,
        start,
        bytes,
        seq: keyed.seq,
        line,
    })
}

/// An LCHILD statement.
#[tactic(auto, unfolding(crate::specs::Meanings::lchild_of))]
pub fn lchild_of(alloc: Global, operands: &[Operand]) -> Result<Child, ReadError>
    ensures { Gives (λ x. x) result (lchild_of operands.now) }
{
    checked(alloc, Word::Lchild, operands)?;
    let child = child_value(alloc, needed(b"NAME", operands)?)?;
    index_value(needed(b"PTR", operands)?)?;
    Ok(child)
}

fn source_or(target: Name8, operands: &[Operand]) -> Result<Name8, ReadError>
    ensures { Gives (λ x. x) result (source_or target (value_of (codes "SEGMENT") operands.now)) }
{
    match value_of(b"SEGMENT", operands) {
        Some(value) => name_value(value),
        None => Ok(target),
    }
}

fn fields_or_none(alloc: Global, operands: &[Operand]) -> Result<List<Name8>, ReadError>
    ensures { Gives (λ x. x) result (fields_or_none (value_of (codes "SUBSEQ") operands.now)) }
{
    match value_of(b"SUBSEQ", operands) {
        Some(value) => fields_value(alloc, value),
        None => Ok(List::new(alloc)),
    }
}

/// An XDFLD statement, behind its LCHILD, whose line is given.
#[tactic(auto, unfolding(crate::specs::Meanings::xdfld_of))]
pub fn xdfld_of(
    alloc: Global,
    line: u32,
    child: Child,
    target: Name8,
    operands: &[Operand],
) -> Result<RawIndex, ReadError>
    ensures { Gives (λ x. x) result (xdfld_of line child target operands.now) }
{
    checked(alloc, Word::Xdfld, operands)?;
    let xdfld = name_value(needed(b"NAME", operands)?)?;
    let search = search_value(alloc, needed(b"SRCH", operands)?)?;
    let source = source_or(target, operands)?;
    let subseq = fields_or_none(alloc, operands)?;
    Ok(RawIndex {
        seg: child.seg,
        name: child.name,
        xdfld,
        target,
        source,
        search,
        subseq,
        line,
    })
}
