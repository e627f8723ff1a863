// Operands of a statement.
ghost use Rattle.std.specs.Prelude.{◌≡◌, ◌+◌, ◌^◌, ◌<◌, ◌≤◌, ◌==◌, if◌then◌else◌, false, length, map, drop, IfOk, Some, None, option_map};
ghost use Rattle.std.specs.List.{list_any, position_or_len};
ghost use Rattle.std.specs.Str.{bytes_eq};
ghost use Rattle.dbd_reader.specs.Operands.{quoted_behind, folded_byte, folded, depth_behind, parts_here, pieces_from, pieces, is_equal_sign, keyword, operand_in, operands_in, has_twins, value_of, inside, parts};

use crate::word::Word;
use hal_base::{Bytes, List, Memory, upper_case};
use std::alloc::Global;

/// An operand: its keyword, and the value behind its equal sign where it has one.
#[derive(Debug, Drop)]
pub struct Operand {
    pub key: Bytes,
    pub value: Option<Bytes>,
}

fn quoted_behind(quoted: bool, byte: u8) -> bool
    ensures { result ≡ quoted_behind quoted byte }
{
    if byte == b'\'' { !quoted } else { quoted }
}

fn folded_byte(quoted: bool, byte: u8) -> u8
    ensures { result ≡ folded_byte quoted byte }
{
    if quoted { byte } else { upper_case(byte) }
}

/// The text with each lower-case letter outside quotes as its upper-case one.
fn folded(alloc: Global, text: &[u8]) -> Result<Bytes, Memory>
    ensures { IfOk result (λ bytes. bytes ≡ folded false text.now) }
{
    let mut bytes = Bytes::new(alloc);
    let mut quoted = false;
    for byte in text {
        bytes.push(folded_byte(quoted, *byte))?;
        quoted = quoted_behind(quoted, *byte);
    }
    Ok(bytes)
}

fn depth_behind(depth: usize, quoted: bool, byte: u8) -> usize
    requires { depth + 1 < 2 ^ 64 }
    ensures depth { result ≡ depth_behind depth quoted byte }
    ensures bound { result ≤ depth + 1 }
{
    match byte {
        _ if quoted => depth,
        b'(' => depth + 1,
        b')' => depth.saturating_sub(1),
        _ => depth,
    }
}

fn parts_here(depth: usize, quoted: bool, byte: u8) -> bool
    ensures { result ≡ parts_here depth quoted byte }
{
    byte == b',' && depth == 0 && !quoted
}

/// What stands between the commas outside parentheses and quotes.
pub fn pieces(alloc: Global, text: &[u8]) -> Result<List<Bytes>, Memory>
    ensures { IfOk result (λ list. list ≡ pieces text.now) }
{
    let mut list = List::new(alloc);
    let mut piece = Bytes::new(alloc);
    let mut depth = 0;
    let mut quoted = false;
    for byte in text {
        if parts_here(depth, quoted, *byte) {
            list.push(piece)?;
            piece = Bytes::new(alloc);
        } else {
            piece.push(*byte)?;
            depth = depth_behind(depth, quoted, *byte);
            quoted = quoted_behind(quoted, *byte);
        }
    }
    list.push(piece)?;
    Ok(list)
}

fn key_len(piece: &[u8]) -> usize
    ensures count { result ≡ position_or_len is_equal_sign piece.now }
    ensures within { result ≤ length piece.now }
{
    piece.iter().take_while(|byte| **byte != b'=').count()
}

fn keyword(word: Word, key: &[u8]) -> &[u8]
    ensures { result.now ≡ keyword word key.now }
{
    match word {
        Word::Lchild => {
            if key == b"POINTER".as_slice() {
                b"PTR".as_slice()
            } else {
                key
            }
        }
        _ => key,
    }
}

fn value_behind(alloc: Global, piece: &[u8], len: usize) -> Result<Option<Bytes>, Memory>
    requires { len ≤ length piece.now }
    ensures { IfOk result (λ value. value ≡ (if len == length piece.now then None else Some (drop (len + 1) piece.now))) }
{
    if len == piece.len() {
        return Ok(None);
    }
    Ok(Some(Bytes::from_slice(alloc, piece.split_at(len + 1).1)?))
}

#[tactic(auto, unfolding(crate::specs::Operands::operand_in))]
fn operand_in(alloc: Global, word: Word, piece: &[u8]) -> Result<Operand, Memory>
    ensures { IfOk result (λ operand. operand ≡ operand_in word piece.now) }
{
    let len = key_len(piece);
    let key = Bytes::from_slice(alloc, keyword(word, piece.split_at(len).0))?;
    let value = value_behind(alloc, piece, len)?;
    Ok(Operand { key, value })
}

/// The operands of a text.
#[tactic(auto, unfolding(crate::specs::Operands::operands_in))]
pub fn operands_in(alloc: Global, word: Word, text: &[u8]) -> Result<List<Operand>, Memory>
    ensures { IfOk result (λ operands. operands ≡ operands_in word text.now) }
{
    if text.is_empty() {
        return Ok(List::new(alloc));
    }
    let text = folded(alloc, text)?;
    let pieces = pieces(alloc, text.as_slice())?;
    operands_of_pieces(alloc, word, pieces.as_slice())
}

fn operands_of_pieces(alloc: Global, word: Word, pieces: &[Bytes]) -> Result<List<Operand>, Memory>
    ensures { IfOk result (λ operands. operands ≡ map (operand_in word) pieces.now) }
{
    let mut operands = List::new(alloc);
    for piece in pieces {
        operands.push(operand_in(alloc, word, piece.as_slice())?)?;
    }
    Ok(operands)
}

fn has_key(operands: &[Operand], key: &[u8]) -> bool
    ensures { result ≡ list_any (λ o. bytes_eq o.key key.now) operands.now }
{
    operands.iter().any(|operand| operand.key.as_slice() == key)
}

/// Whether a keyword stands twice.
#[tactic(auto, unfolding(crate::specs::Operands::has_twins))]
pub fn has_twins(operands: &[Operand]) -> bool
    ensures { result ≡ has_twins operands.now }
{
    let mut left = operands;
    while let [first, behind @ ..] = left {
        if has_key(behind, first.key.as_slice()) {
            return true;
        }
        left = behind;
    }
    false
}

/// The value of an operand.
#[tactic(auto, unfolding(crate::specs::Operands::value_of))]
pub fn value_of<'a>(key: &[u8], operands: &'a [Operand]) -> Option<&'a [u8]>
    ensures { option_map (λ value. value.now) result ≡ value_of key.now operands.now }
{
    for operand in operands {
        if operand.key.as_slice() == key {
            return match &operand.value {
                Some(value) => Some(value.as_slice()),
                None => None,
            };
        }
    }
    None
}

/// What stands in parentheses.
#[tactic(auto, unfolding(crate::specs::Operands::inside))]
pub fn inside(value: &[u8]) -> Option<&[u8]>
    ensures { option_map (λ text. text.now) result ≡ inside value.now }
{
    match value {
        [b'(', text @ .., b')'] => Some(text),
        _ => None,
    }
}

/// The parts of a list, or the value alone.
#[tactic(auto, unfolding(crate::specs::Operands::parts))]
pub fn parts(alloc: Global, value: &[u8]) -> Result<List<Bytes>, Memory>
    ensures { IfOk result (λ list. list ≡ parts value.now) }
{
    if let Some(text) = inside(value) {
        return pieces(alloc, text);
    }
    let mut list = List::new(alloc);
    list.push(Bytes::from_slice(alloc, value)?)?;
    Ok(list)
}
