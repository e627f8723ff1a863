// Values of a SEGM: its parent, its length and its rules.
ghost use Rattle.std.specs.Prelude.{◌≡◌, ◌&&◌, ◌||◌, map, IfOk, None, Some, codes};
ghost use Rattle.std.specs.List.{list_all, list_any};
ghost use Rattle.std.specs.Str.{bytes_eq};
ghost use Rattle.hal_base.specs.Name.{is_name, upper};
ghost use Rattle.dbd_reader.specs.Operands.{inside, parts, pieces};
ghost use Rattle.dbd_reader.specs.Reading.{Gives};
ghost use Rattle.dbd_reader.specs.Values.{is_pointer, pointed_name, is_physical, is_logical, in_list_holds, parent_of, parent_in, parent_value, bytes_of, bytes_value, is_letter, are_letters, place_of, rules_of, rules_value, letter_value};

use crate::fault::ReadError;
use crate::operand::{inside, parts, pieces};
use crate::value::{in_list, is_name, is_number, name_value, number_value};
use hal_base::{Bytes, Memory, Name8};
use std::alloc::Global;

fn is_pointer(word: &[u8]) -> bool
    ensures { result ≡ is_pointer word.now }
{
    word == b"SNGL".as_slice() || word == b"DBLE".as_slice()
}

#[tactic(auto, unfolding(crate::specs::Values::pointed_name))]
fn pointed_name(items: &[Bytes]) -> Result<Name8, ReadError>
    ensures { Gives (λ x. x) result (pointed_name items.now) }
{
    match items {
        [name, pointer] => {
            if is_pointer(pointer.as_slice()) {
                name_value(name.as_slice())
            } else {
                Err(ReadError::Rule(17))
            }
        }
        _ => Err(ReadError::Rule(17)),
    }
}

#[tactic(auto, unfolding(crate::specs::Values::is_physical))]
fn is_physical(items: &[Bytes]) -> bool
    ensures { result ≡ is_physical items.now }
{
    match items {
        [name] => is_name(name.as_slice()),
        [name, pointer] => is_name(name.as_slice()) && is_pointer(pointer.as_slice()),
        _ => false,
    }
}

fn is_link(kind: &[u8]) -> bool
    ensures { result ≡ (bytes_eq kind.now (codes "VIRTUAL") || bytes_eq kind.now (codes "PHYSICAL")) }
{
    kind == b"VIRTUAL".as_slice() || kind == b"PHYSICAL".as_slice()
}

#[tactic(auto, unfolding(crate::specs::Values::is_logical))]
fn is_logical(items: &[Bytes]) -> bool
    ensures { result ≡ is_logical items.now }
{
    match items {
        [seg, kind, database] => {
            is_name(seg.as_slice()) && is_link(kind.as_slice()) && is_name(database.as_slice())
        }
        _ => false,
    }
}

fn in_physical(alloc: Global, value: &[u8]) -> Result<bool, Memory>
    ensures { IfOk result (λ b. b ≡ in_list_holds is_physical (inside value.now)) }
{
    match inside(value) {
        Some(text) => Ok(is_physical(pieces(alloc, text)?.as_slice())),
        None => Ok(false),
    }
}

fn in_logical(alloc: Global, value: &[u8]) -> Result<bool, Memory>
    ensures { IfOk result (λ b. b ≡ in_list_holds is_logical (inside value.now)) }
{
    match inside(value) {
        Some(text) => Ok(is_logical(pieces(alloc, text)?.as_slice())),
        None => Ok(false),
    }
}

/// Whether two lists are a physical and a logical parent.
fn are_parents(alloc: Global, first: &[u8], second: &[u8]) -> Result<bool, Memory>
    ensures { IfOk result (λ b. b ≡ (in_list_holds is_physical (inside first.now) && in_list_holds is_logical (inside second.now))) }
{
    let physical = in_physical(alloc, first)?;
    let logical = in_logical(alloc, second)?;
    Ok(physical && logical)
}

#[tactic(auto, unfolding(crate::specs::Values::parent_of))]
fn parent_of(alloc: Global, items: &[Bytes]) -> Result<Name8, ReadError>
    ensures { Gives (λ x. x) result (parent_of items.now) }
{
    match items {
        [only] => {
            let inner = in_list(alloc, only.as_slice())?;
            pointed_name(inner.as_slice())
        }
        [first, second] => {
            if are_parents(alloc, first.as_slice(), second.as_slice())? {
                return Err(ReadError::Rule(18));
            }
            pointed_name(items)
        }
        _ => Err(ReadError::Rule(17)),
    }
}

fn parent_in(alloc: Global, value: &[u8]) -> Result<Name8, ReadError>
    ensures { Gives (λ x. x) result (parent_in value.now (inside value.now)) }
{
    match inside(value) {
        Some(text) => {
            let items = pieces(alloc, text)?;
            parent_of(alloc, items.as_slice())
        }
        None => name_value(value),
    }
}

/// The physical parent; none for 0.
#[tactic(auto, unfolding(crate::specs::Values::parent_value))]
pub fn parent_value(alloc: Global, value: &[u8]) -> Result<Option<Name8>, ReadError>
    ensures { Gives (λ x. x) result (parent_value value.now) }
{
    if value == b"0".as_slice() {
        return Ok(None);
    }
    let name = parent_in(alloc, value)?;
    Ok(Some(name))
}

#[tactic(auto, unfolding(crate::specs::Values::bytes_of))]
fn bytes_of(items: &[Bytes]) -> Result<u32, ReadError>
    ensures { Gives (λ x. x) result (bytes_of items.now) }
{
    match items {
        [only] => number_value(only.as_slice()),
        [greatest, least] => {
            if is_number(greatest.as_slice()) && is_number(least.as_slice()) {
                Err(ReadError::Rule(18))
            } else {
                Err(ReadError::Rule(17))
            }
        }
        _ => Err(ReadError::Rule(17)),
    }
}

/// A segment's length.
#[tactic(auto, unfolding(crate::specs::Values::bytes_value))]
pub fn bytes_value(alloc: Global, value: &[u8]) -> Result<u32, ReadError>
    ensures { Gives (λ x. x) result (bytes_value value.now) }
{
    let items = parts(alloc, value)?;
    bytes_of(items.as_slice())
}

fn are_letters(word: &[u8]) -> bool
    ensures { result ≡ are_letters word.now }
{
    word.iter().all(|byte| matches!(byte, b'A'..=b'Z'))
}

fn place_of(word: &[u8]) -> Result<bool, ReadError>
    ensures { Gives (λ x. x) result (place_of word.now) }
{
    if word == b"FIRST".as_slice() {
        Ok(true)
    } else if word.is_empty() || word == b"LAST".as_slice() {
        Ok(false)
    } else {
        Err(ReadError::Rule(17))
    }
}

#[tactic(auto, unfolding(crate::specs::Values::rules_of))]
fn rules_of(items: &[Bytes]) -> Result<bool, ReadError>
    ensures { Gives (λ x. x) result (rules_of items.now) }
{
    match items {
        [letters] => {
            let letters = letters.as_slice();
            if !letters.is_empty() && are_letters(letters) {
                Ok(false)
            } else {
                Err(ReadError::Rule(17))
            }
        }
        [letters, place] => {
            if are_letters(letters.as_slice()) {
                place_of(place.as_slice())
            } else {
                Err(ReadError::Rule(17))
            }
        }
        _ => Err(ReadError::Rule(17)),
    }
}

fn has_here(items: &[Bytes]) -> bool
    ensures { result ≡ list_any (λ part. bytes_eq part (codes "HERE")) items.now }
{
    items
        .iter()
        .any(|item| item.as_slice() == b"HERE".as_slice())
}

/// Whether a twin without a sequence field goes first; else it goes last.
#[tactic(auto, unfolding(crate::specs::Values::rules_value))]
pub fn rules_value(alloc: Global, value: &[u8]) -> Result<bool, ReadError>
    ensures { Gives (λ x. x) result (rules_value value.now) }
{
    let items = parts(alloc, value)?;
    if has_here(items.as_slice()) {
        return Err(ReadError::Rule(18));
    }
    rules_of(items.as_slice())
}

/// The letter of a data set group.
#[tactic(auto, unfolding(crate::specs::Values::letter_value))]
pub fn letter_value(value: &[u8]) -> Result<u8, ReadError>
    ensures { Gives (λ x. x) result (letter_value value.now) }
{
    match value {
        [letter] => Ok(*letter),
        _ => Err(ReadError::Rule(17)),
    }
}
