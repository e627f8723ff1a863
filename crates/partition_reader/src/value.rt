// Values of a partition file.
ghost use Rattle.std.specs.Prelude.{◌≡◌, ◌<◌, ◌^◌, length, option_map, drop, Some, None};
ghost use Rattle.std.specs.List.{list_all};
ghost use Rattle.toml.specs.View.{view};
ghost use Rattle.hal_schema.specs.Reading.{Says};
ghost use Rattle.partition_reader.specs.Values.{number_in, number_or_zero, optional_number, name_in, is_printable, begins_hex, before_quote, bytes_in, key_of, high_in};

use hal_base::{Bytes, Name8};
use hal_schema::TextFault;
use hex::FromHexError;
use std::alloc::Global;
use toml::Value;

/// The fault of a value of this place that isn't readable.
pub fn unreadable(place: u32) -> TextFault
    ensures { result ≡ TextFault.Rule 23 place }
{
    TextFault::Rule {
        rule: 23,
        line: place,
    }
}

/// A whole number of 32 bits.
#[tactic(auto, unfolding(crate::specs::Values::number_in))]
pub fn number_in(place: u32, value: &Value) -> Result<u32, TextFault>
    ensures { result ≡ number_in place (view value.now) }
{
    match value.as_integer() {
        Some(number) if 0 <= number && number < 4_294_967_296 => Ok(number as u32),
        _ => Err(unreadable(place)),
    }
}

pub fn number_or_zero(place: u32, value: Option<&Value>) -> Result<u32, TextFault>
    ensures { result ≡ number_or_zero place (option_map (λ v. view v.now) value.entry) }
{
    match value {
        Some(value) => number_in(place, value),
        None => Ok(0),
    }
}

pub fn optional_number(place: u32, value: Option<&Value>) -> Result<Option<u32>, TextFault>
    ensures { result ≡ optional_number place (option_map (λ v. view v.now) value.entry) }
{
    match value {
        Some(value) => Ok(Some(number_in(place, value)?)),
        None => Ok(None),
    }
}

#[tactic(auto, unfolding(crate::specs::Values::name_in))]
pub fn name_in(place: u32, value: &Value) -> Result<Name8, TextFault>
    ensures { result ≡ name_in place (view value.now) }
{
    let Some(text) = value.as_str() else {
        return Err(unreadable(place));
    };
    match Name8::read(text.as_bytes()) {
        Some(name) => Ok(name),
        None => Err(unreadable(place)),
    }
}

fn all_printable(text: &[u8]) -> bool
    ensures { result ≡ list_all is_printable text.now }
{
    text.iter().all(|byte| matches!(byte, b' '..=b'~'))
}

fn begins_hex(text: &[u8]) -> bool
    ensures { result ≡ begins_hex text.now }
{
    matches!(text, [b'X', b'\'', ..])
}

fn before_quote(text: &[u8]) -> Option<&[u8]>
    ensures { option_map (λ t. t.now) result ≡ before_quote text.now }
{
    match text {
        [front @ .., b'\''] => Some(front),
        _ => None,
    }
}

fn bytes_in(alloc: Global, place: u32, digits: Option<&[u8]>) -> Result<Bytes, TextFault>
    ensures { Says result (bytes_in place (option_map (λ d. d.now) digits.entry)) }
{
    let Some(digits) = digits else {
        return Err(unreadable(place));
    };
    match hex::decode(alloc, digits) {
        Ok(bytes) if bytes.is_empty() => Err(unreadable(place)),
        Ok(bytes) => Ok(Bytes::from_vec(bytes)),
        Err(FromHexError::OutOfMemory) => Err(TextFault::Memory),
        Err(_) => Err(unreadable(place)),
    }
}

#[tactic(auto, unfolding(crate::specs::Values::key_of))]
fn key_of(alloc: Global, place: u32, text: &[u8]) -> Result<Bytes, TextFault>
    ensures { Says result (key_of place text.now) }
{
    if begins_hex(text) {
        return bytes_in(alloc, place, before_quote(&text[2..]));
    }
    if all_printable(text) {
        Ok(Bytes::from_slice(alloc, text)?)
    } else {
        Err(unreadable(place))
    }
}

/// A high key: a text, or bytes in hex.
#[tactic(auto, unfolding(crate::specs::Values::high_in))]
pub fn high_in(alloc: Global, place: u32, value: &Value) -> Result<Bytes, TextFault>
    ensures { Says result (high_in place (view value.now)) }
{
    match value.as_str() {
        Some(text) => key_of(alloc, place, text.as_bytes()),
        None => Err(unreadable(place)),
    }
}
