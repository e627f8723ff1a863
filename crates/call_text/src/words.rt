// Blanks and words, as they are read.
ghost use Rattle.hal_base.specs.Numbers.{number_of};
ghost use Rattle.std.specs.Prelude.{◌≡◌, ◌≤◌, map, length, IfOk, IsTrue, if◌then◌else◌};
ghost use Rattle.std.specs.List.{list_all, prefix_len, take_while};
ghost use Rattle.hal_base.specs.Name.{upper, is_digit};
ghost use Rattle.call_text.specs.Words.{is_blank, past, in_word, is_letter, is_letter_or_digit, is_word, is_number, is_count};
ghost use Rattle.call_text.specs.Reading.{Gives, name_at, word_at, count_at, is_end, begins_blank, begins_word};

use crate::fault::{Fault, ReadError};
use hal_base::{Bytes, Memory, Name8, are_digits, number_of, upper_case};
use std::alloc::Global;

fn is_blank(byte: u8) -> bool
    ensures { result ≡ is_blank byte }
{
    byte == b' '
}

pub fn past_blanks(text: &[u8]) -> &[u8]
    ensures { result.now ≡ past is_blank text.now }
{
    &text[blanks(text)..]
}

fn blanks(text: &[u8]) -> usize
    ensures count { result ≡ prefix_len is_blank text.now }
    ensures within { result ≤ length text.now }
{
    text.iter().take_while(|byte| is_blank(**byte)).count()
}

pub fn is_end(text: &[u8]) -> bool
    ensures { result ≡ is_end text.now }
{
    text.iter().all(|byte| is_blank(*byte))
}

pub fn begins_blank(text: &[u8]) -> bool
    ensures { result ≡ begins_blank text.now }
{
    matches!(text, [b' ', ..])
}

pub fn begins_word(text: &[u8]) -> bool
    ensures { result ≡ begins_word text.now }
{
    match text {
        [] => false,
        [first, ..] => in_word(*first),
    }
}

fn in_word(byte: u8) -> bool
    ensures { result ≡ in_word byte }
{
    matches!(upper_case(byte), b'A'..=b'Z' | b'#' | b'@' | b'$' | b'0'..=b'9')
}

/// The longest word at the front, which may be empty, and what stands behind it.
pub fn split_word(text: &[u8]) -> (&[u8], &[u8])
    ensures word { result.0.now ≡ take_while in_word text.now }
    ensures rest { result.1.now ≡ past in_word text.now }
{
    text.split_at(word_len(text))
}

fn word_len(text: &[u8]) -> usize
    ensures count { result ≡ prefix_len in_word text.now }
    ensures within { result ≤ length text.now }
{
    text.iter().take_while(|byte| in_word(**byte)).count()
}

/// The bytes with each lower-case letter as its upper-case one.
pub fn upper_bytes(alloc: Global, text: &[u8]) -> Result<Bytes, Memory>
    ensures { IfOk result (λ bytes. bytes ≡ map upper text.now) }
{
    let mut bytes = Bytes::new(alloc);
    for byte in text {
        bytes.push(upper_case(*byte))?;
    }
    Ok(bytes)
}

/// What stands behind the longest word at the front.
pub fn past_word(text: &[u8]) -> &[u8]
    ensures { result.now ≡ past in_word text.now }
{
    split_word(text).1
}

/// The name at the front, behind which stands what is past the word.
#[tactic(auto, unfolding(crate::specs::Reading::name_at))]
pub fn name_of(text: &[u8]) -> Result<Name8, ReadError>
    ensures { Gives (λ name. (name, past in_word text.now)) result (name_at text.now) }
{
    match Name8::read(split_word(text).0) {
        Some(name) => Ok(name),
        None => Err(ReadError::Fault(Fault::Form)),
    }
}

pub fn is_letter(byte: u8) -> bool
    ensures { result ≡ is_letter (upper byte) }
{
    matches!(upper_case(byte), b'A'..=b'Z')
}

fn is_letter_or_digit(byte: u8) -> bool
    ensures { result ≡ is_letter_or_digit (upper byte) }
{
    matches!(upper_case(byte), b'A'..=b'Z' | b'0'..=b'9')
}

fn all_letters_or_digits(text: &[u8]) -> bool
    ensures { result ≡ list_all is_letter_or_digit (map upper text.now) }
{
    text.iter().all(|byte| is_letter_or_digit(*byte))
}

pub fn all_letters(text: &[u8]) -> bool
    ensures { result ≡ list_all is_letter (map upper text.now) }
{
    text.iter().all(|byte| is_letter(*byte))
}

fn spells_word(text: &[u8]) -> bool
    ensures { result ≡ is_word (map upper text.now) }
{
    !text.is_empty() && text.len() <= 8 && all_letters_or_digits(text)
}

#[tactic(auto, unfolding(crate::specs::Reading::word_at))]
pub fn word_of(alloc: Global, text: &[u8]) -> Result<(Bytes, &[u8]), ReadError>
    ensures { Gives (λ x. (x.0, x.1.now)) result (word_at text.now) }
{
    let (word, rest) = split_word(text);
    if !spells_word(word) {
        return Err(ReadError::Fault(Fault::Form));
    }
    Ok((upper_bytes(alloc, word)?, rest))
}

fn is_number(word: &[u8]) -> bool
    ensures { result ≡ is_number word.now }
{
    !word.is_empty() && are_digits(word)
}

fn count(digits: &[u8]) -> Option<u16>
    requires { IsTrue (list_all is_digit digits.now) }
    ensures { result ≡ (if is_count digits.now then Some (number_of digits.now) else None) }
{
    if digits.len() > 4 {
        return None;
    }
    let number = number_of(digits);
    if 1 <= number && number <= 1000 {
        Some(number as u16)
    } else {
        None
    }
}

#[tactic(auto, unfolding(crate::specs::Reading::count_at))]
pub fn count_of(text: &[u8]) -> Result<(u16, &[u8]), ReadError>
    ensures { Gives (λ x. (x.0, x.1.now)) result (count_at text.now) }
{
    let (word, rest) = split_word(text);
    if !is_number(word) {
        return Err(ReadError::Fault(Fault::Form));
    }
    match count(word) {
        Some(count) => Ok((count, rest)),
        None => Err(ReadError::Fault(Fault::Count)),
    }
}
