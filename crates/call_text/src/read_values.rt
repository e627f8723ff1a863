// Values and operators, as they are read.
ghost use Rattle.std.specs.Prelude.{◌≡◌, [], ◌<◌, ◌≤◌, true, length, IfOk, IfSome, option_map};
ghost use Rattle.std.specs.List.{list_all, prefix_len, take_while};
ghost use Rattle.hal_base.specs.Name.{upper};
ghost use Rattle.call_text.specs.Words.{past, is_hex, hex_value, printed_operator};
ghost use Rattle.call_text.specs.Printed.{is_sign};
ghost use Rattle.call_text.specs.Reading.{Gives, text_byte_at, text_at, close_at, pair_at, pairs_at, hex_at, value_at, operator_word_at, operator_at};

use crate::Value;
use crate::fault::{Fault, ReadError};
use crate::printing::is_sign;
use crate::words::{all_letters, begins_blank, split_word, upper_bytes};
use hal_base::{Bytes, upper_case};
use std::alloc::Global;

/// The next byte of a text, with two quotes as one, or none where the quote closes it; and what stands behind.
fn text_byte_of(text: &[u8]) -> Result<(Option<u8>, &[u8]), ReadError>
    ensures read { Gives (λ x. (x.0, x.1.now)) result (text_byte_at text.now) }
    ensures shorter { IfOk result (λ x. length x.1.now < length text.now) }
{
    match text {
        [b'\'', b'\'', rest @ ..] => Ok((Some(b'\''), rest)),
        [b'\'', rest @ ..] => Ok((None, rest)),
        [byte, rest @ ..] => Ok((Some(*byte), rest)),
        [] => Err(ReadError::Fault(Fault::Value)),
    }
}

/// The text behind an opening quote, and what stands behind the closing one.
fn text_of(alloc: Global, text: &[u8]) -> Result<(Bytes, &[u8]), ReadError>
    ensures { Gives (λ x. (x.0, x.1.now)) result (text_at text.now) }
{
    let mut bytes = Bytes::new(alloc);
    let mut rest = text;
    loop {
        let (next, behind) = text_byte_of(rest)?;
        rest = behind;
        let Some(byte) = next else {
            return Ok((bytes, rest));
        };
        bytes.push(byte)?;
    }
}

fn is_hex(byte: u8) -> bool
    ensures { result ≡ is_hex byte }
{
    matches!(byte, b'0'..=b'9') || matches!(upper_case(byte), b'A'..=b'F')
}

/// What a hexadecimal digit stands for; a byte that is none stands for some number below 16 too.
fn hex_value(byte: u8) -> u8
    requires { is_hex byte ≡ true }
    ensures value { result ≡ hex_value byte }
    ensures small { result < 16 }
{
    if byte <= b'9' {
        byte - b'0'
    } else {
        upper_case(byte) - 55
    }
}

fn close_of(text: &[u8]) -> Result<&[u8], ReadError>
    ensures { Gives (λ x. ([], x.now)) result (close_at text.now) }
{
    match text {
        [b'\'', rest @ ..] => Ok(rest),
        _ => Err(ReadError::Fault(Fault::Value)),
    }
}

/// The byte that two hexadecimal digits at the front write, and what stands behind them.
fn pair_of(text: &[u8]) -> Option<(u8, &[u8])>
    ensures read { option_map (λ x. (x.0, x.1.now)) result ≡ pair_at text.now }
    ensures shorter { IfSome result (λ x. length x.1.now < length text.now) }
{
    let [high, low, rest @ ..] = text else {
        return None;
    };
    if !is_hex(*high) || !is_hex(*low) {
        return None;
    }
    Some((16 * hex_value(*high) + hex_value(*low), rest))
}

fn pairs_of(alloc: Global, text: &[u8]) -> Result<(Bytes, &[u8]), ReadError>
    ensures { Gives (λ x. (x.0, x.1.now)) result (pairs_at text.now) }
{
    let mut bytes = Bytes::new(alloc);
    let mut rest = text;
    while let Some((byte, behind)) = pair_of(rest) {
        bytes.push(byte)?;
        rest = behind;
    }
    let rest = close_of(rest)?;
    Ok((bytes, rest))
}

#[tactic(auto, unfolding(crate::specs::Reading::hex_at))]
fn hex_of(alloc: Global, text: &[u8]) -> Result<(Bytes, &[u8]), ReadError>
    ensures { Gives (λ x. (x.0, x.1.now)) result (hex_at text.now) }
{
    let (bytes, rest) = pairs_of(alloc, text)?;
    if bytes.is_empty() {
        return Err(ReadError::Fault(Fault::Value));
    }
    Ok((bytes, rest))
}

#[tactic(auto, unfolding(crate::specs::Reading::value_at))]
pub fn value_of(alloc: Global, text: &[u8]) -> Result<(Value, &[u8]), ReadError>
    ensures { Gives (λ x. (x.0, x.1.now)) result (value_at text.now) }
{
    match text {
        [b'\'', rest @ ..] => {
            let (bytes, rest) = text_of(alloc, rest)?;
            Ok((Value::Text(bytes), rest))
        }
        [b'X' | b'x', b'\'', rest @ ..] => {
            let (bytes, rest) = hex_of(alloc, rest)?;
            Ok((Value::Hex(bytes), rest))
        }
        _ => Err(ReadError::Fault(Fault::Form)),
    }
}

/// An operator as it is printed.
fn printed_operator(op: &[u8]) -> &[u8]
    ensures { result.now ≡ printed_operator op.now }
{
    match op {
        b"EQ" => b"=",
        b"GT" => b">",
        b"LT" => b"<",
        b"GE" | b"=>" => b">=",
        b"LE" | b"=<" => b"<=",
        _ => op,
    }
}

#[tactic(auto, unfolding(crate::specs::Reading::operator_word_at))]
fn operator_word_of(alloc: Global, text: &[u8]) -> Result<(Bytes, &[u8]), ReadError>
    ensures { Gives (λ x. (x.0, x.1.now)) result (operator_word_at text.now) }
{
    let (word, rest) = split_word(text);
    if word.is_empty() || !all_letters(word) || !begins_blank(rest) {
        return Err(ReadError::Fault(Fault::Form));
    }
    let word = upper_bytes(alloc, word)?;
    let op = Bytes::from_slice(alloc, printed_operator(word.as_slice()))?;
    Ok((op, rest))
}

fn split_signs(text: &[u8]) -> (&[u8], &[u8])
    ensures signs { result.0.now ≡ take_while is_sign text.now }
    ensures rest { result.1.now ≡ past is_sign text.now }
{
    text.split_at(signs_len(text))
}

fn signs_len(text: &[u8]) -> usize
    ensures count { result ≡ prefix_len is_sign text.now }
    ensures within { result ≤ length text.now }
{
    text.iter().take_while(|byte| is_sign(**byte)).count()
}

#[tactic(auto, unfolding(crate::specs::Reading::operator_at))]
pub fn operator_of(alloc: Global, text: &[u8]) -> Result<(Bytes, &[u8]), ReadError>
    ensures { Gives (λ x. (x.0, x.1.now)) result (operator_at text.now) }
{
    let (signs, rest) = split_signs(text);
    if signs.is_empty() {
        return operator_word_of(alloc, text);
    }
    let op = Bytes::from_slice(alloc, printed_operator(signs))?;
    Ok((op, rest))
}
