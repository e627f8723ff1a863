// The operands that a statement takes, and the rules that they break.
ghost use Rattle.std.specs.Prelude.{◌≡◌, IfOk};
ghost use Rattle.std.specs.List.{list_any};
ghost use Rattle.dbd_reader.specs.Reading.{Gives};
ghost use Rattle.dbd_reader.specs.Verdicts.{is_left_out, dbd_takes, segm_takes, field_takes, lchild_takes, xdfld_takes, takes, dbd_verdict, segm_verdict, field_verdict, lchild_verdict, xdfld_verdict, value_verdict, given, verdict, rule_of, is_rule, breaks, checked};

use crate::fault::ReadError;
use crate::field_value::{child_value, fields_value, index_value, keyed_value, search_value};
use crate::operand::{Operand, has_twins};
use crate::segm_value::{bytes_value, letter_value, parent_value, rules_value};
use crate::value::{access_value, name_value, number_value, rmname_value};
use crate::word::Word;
use hal_base::{Bytes, Memory};
use std::alloc::Global;

fn is_left_out(key: &[u8]) -> bool
    ensures { result ≡ is_left_out key.now }
{
    key == b"COMPRTN".as_slice()
        || key == b"EXIT".as_slice()
        || key == b"PSNAME".as_slice()
        || key == b"DDATA".as_slice()
        || key == b"CONST".as_slice()
        || key == b"EXTRTN".as_slice()
        || key == b"NULLVAL".as_slice()
}

fn dbd_takes(key: &[u8]) -> bool
    ensures { result ≡ dbd_takes key.now }
{
    key == b"NAME".as_slice()
        || key == b"ACCESS".as_slice()
        || key == b"RMNAME".as_slice()
        || key == b"VERSION".as_slice()
}

fn segm_takes(key: &[u8]) -> bool
    ensures { result ≡ segm_takes key.now }
{
    key == b"NAME".as_slice()
        || key == b"PARENT".as_slice()
        || key == b"BYTES".as_slice()
        || key == b"RULES".as_slice()
        || key == b"DSGROUP".as_slice()
        || key == b"PTR".as_slice()
        || key == b"POINTER".as_slice()
        || key == b"FREQ".as_slice()
}

fn field_takes(key: &[u8]) -> bool
    ensures { result ≡ field_takes key.now }
{
    key == b"NAME".as_slice()
        || key == b"BYTES".as_slice()
        || key == b"START".as_slice()
        || key == b"TYPE".as_slice()
}

fn lchild_takes(key: &[u8]) -> bool
    ensures { result ≡ lchild_takes key.now }
{
    key == b"NAME".as_slice() || key == b"PTR".as_slice()
}

fn xdfld_takes(key: &[u8]) -> bool
    ensures { result ≡ xdfld_takes key.now }
{
    key == b"NAME".as_slice()
        || key == b"SEGMENT".as_slice()
        || key == b"SRCH".as_slice()
        || key == b"SUBSEQ".as_slice()
}

#[tactic(auto, unfolding(crate::specs::Verdicts::takes))]
fn takes(word: Word, key: &[u8]) -> bool
    ensures { result ≡ takes word key.now }
{
    match word {
        Word::Dbd => dbd_takes(key),
        Word::Segm => segm_takes(key),
        Word::Field => field_takes(key),
        Word::Lchild => lchild_takes(key),
        Word::Xdfld => xdfld_takes(key),
        _ => false,
    }
}

#[tactic(auto, unfolding(crate::specs::Verdicts::dbd_verdict))]
fn dbd_verdict(alloc: Global, key: &[u8], value: &[u8]) -> Result<(), ReadError>
    ensures { Gives (λ x. x) result (dbd_verdict key.now value.now) }
{
    if key == b"NAME".as_slice() {
        let _name = name_value(value)?;
    } else if key == b"ACCESS".as_slice() {
        let _phdam = access_value(alloc, value)?;
    } else if key == b"RMNAME".as_slice() {
        let _rm = rmname_value(alloc, value)?;
    }
    Ok(())
}

#[tactic(auto, unfolding(crate::specs::Verdicts::segm_verdict))]
fn segm_verdict(alloc: Global, key: &[u8], value: &[u8]) -> Result<(), ReadError>
    ensures { Gives (λ x. x) result (segm_verdict key.now value.now) }
{
    if key == b"NAME".as_slice() {
        let _name = name_value(value)?;
    } else if key == b"PARENT".as_slice() {
        let _parent = parent_value(alloc, value)?;
    } else if key == b"BYTES".as_slice() {
        let _bytes = bytes_value(alloc, value)?;
    } else if key == b"RULES".as_slice() {
        let _first = rules_value(alloc, value)?;
    } else if key == b"DSGROUP".as_slice() {
        let _letter = letter_value(value)?;
    }
    Ok(())
}

#[tactic(auto, unfolding(crate::specs::Verdicts::field_verdict))]
fn field_verdict(alloc: Global, key: &[u8], value: &[u8]) -> Result<(), ReadError>
    ensures { Gives (λ x. x) result (field_verdict key.now value.now) }
{
    if key == b"NAME".as_slice() {
        let _name = keyed_value(alloc, value)?;
    } else if key == b"BYTES".as_slice() || key == b"START".as_slice() {
        let _number = number_value(value)?;
    }
    Ok(())
}

#[tactic(auto, unfolding(crate::specs::Verdicts::lchild_verdict))]
fn lchild_verdict(alloc: Global, key: &[u8], value: &[u8]) -> Result<(), ReadError>
    ensures { Gives (λ x. x) result (lchild_verdict key.now value.now) }
{
    if key == b"NAME".as_slice() {
        let _child = child_value(alloc, value)?;
        return Ok(());
    }
    index_value(value)
}

#[tactic(auto, unfolding(crate::specs::Verdicts::xdfld_verdict))]
fn xdfld_verdict(alloc: Global, key: &[u8], value: &[u8]) -> Result<(), ReadError>
    ensures { Gives (λ x. x) result (xdfld_verdict key.now value.now) }
{
    if key == b"SRCH".as_slice() {
        let _search = search_value(alloc, value)?;
    } else if key == b"SUBSEQ".as_slice() {
        let _subseq = fields_value(alloc, value)?;
    } else {
        let _name = name_value(value)?;
    }
    Ok(())
}

#[tactic(auto, unfolding(crate::specs::Verdicts::value_verdict))]
fn value_verdict(alloc: Global, word: Word, key: &[u8], value: &[u8]) -> Result<(), ReadError>
    ensures { Gives (λ x. x) result (value_verdict word key.now value.now) }
{
    match word {
        Word::Dbd => dbd_verdict(alloc, key, value),
        Word::Segm => segm_verdict(alloc, key, value),
        Word::Field => field_verdict(alloc, key, value),
        Word::Lchild => lchild_verdict(alloc, key, value),
        Word::Xdfld => xdfld_verdict(alloc, key, value),
        _ => Ok(()),
    }
}

fn given(value: &Option<Bytes>) -> Result<&[u8], ReadError>
    ensures { Gives (λ x. x.now) result (given value.now) }
{
    match value {
        Some(value) => {
            if value.as_slice().is_empty() {
                return Err(ReadError::Rule(17));
            }
            Ok(value.as_slice())
        }
        None => Err(ReadError::Rule(17)),
    }
}

#[tactic(auto, unfolding(crate::specs::Verdicts::verdict))]
fn verdict(alloc: Global, word: Word, operand: &Operand) -> Result<(), ReadError>
    ensures { Gives (λ x. x) result (verdict word operand.now) }
{
    let key = operand.key.as_slice();
    if is_left_out(key) {
        return Err(ReadError::Rule(18));
    }
    if !takes(word, key) {
        return Err(ReadError::Rule(15));
    }
    let value = given(&operand.value)?;
    value_verdict(alloc, word, key, value)
}

/// The rule that an operand breaks.
fn broken_rule(alloc: Global, word: Word, operand: &Operand) -> Result<Option<u8>, Memory>
    ensures { IfOk result (λ rule. rule ≡ rule_of (verdict word operand.now)) }
{
    match verdict(alloc, word, operand) {
        Ok(()) => Ok(None),
        Err(ReadError::Rule(rule)) => Ok(Some(rule)),
        Err(ReadError::Memory) => Err(Memory),
    }
}

fn is_rule(rule: u8, broken: Option<u8>) -> bool
    ensures { result ≡ is_rule rule broken }
{
    match broken {
        Some(broken) => broken == rule,
        None => false,
    }
}

/// Whether an operand breaks a rule.
fn any_breaks(alloc: Global, rule: u8, word: Word, operands: &[Operand]) -> Result<bool, Memory>
    ensures { IfOk result (λ b. b ≡ list_any (breaks rule word) operands.now) }
{
    for operand in operands {
        if is_rule(rule, broken_rule(alloc, word, operand)?) {
            return Ok(true);
        }
    }
    Ok(false)
}

/// Whether the operands of a statement break no rule; else the first in the order 18, 15, 17.
#[tactic(auto, unfolding(crate::specs::Verdicts::checked))]
pub fn checked(alloc: Global, word: Word, operands: &[Operand]) -> Result<(), ReadError>
    ensures { Gives (λ x. x) result (checked word operands.now) }
{
    if any_breaks(alloc, 18, word, operands)? {
        return Err(ReadError::Rule(18));
    }
    if any_breaks(alloc, 15, word, operands)? || has_twins(operands) {
        return Err(ReadError::Rule(15));
    }
    if any_breaks(alloc, 17, word, operands)? {
        return Err(ReadError::Rule(17));
    }
    Ok(())
}
