// Values of operands.
ghost use Rattle.hal_base.specs.Numbers.{number_of};
ghost use Rattle.std.specs.Prelude.{◌≡◌, ◌<◌, ◌≤◌, ◌^◌, map, drop, min, length, IsTrue, true, None, Some, option_map, if◌then◌else◌};
ghost use Rattle.std.specs.List.{list_all};
ghost use Rattle.hal_base.specs.Name.{is_name, is_name_byte, is_field_name, is_digit, upper};
ghost use Rattle.dbd_reader.specs.Operands.{inside, parts};
ghost use Rattle.dbd_reader.specs.Reading.{Gives};
ghost use Rattle.dbd_reader.specs.Values.{name_value, is_system_name, field_value, is_number, number_value, method_of, access_of, access_value, is_optional_number, first_number, rmname_of, rmname_value, in_list};

use crate::fault::ReadError;
use crate::operand::{inside, parts, pieces};
use hal_base::{Bytes, List, Name8, are_digits, number_of, upper_case};
use std::alloc::Global;

/// The name of a module, and the counts of anchors and of blocks behind it.
#[derive(Clone, Copy, Debug)]
pub struct RmName {
    pub module_name: Name8,
    pub anch: u32,
    pub rbn: u32,
}

/// A field's name, and whether it is a sequence field: 0 for none, 1 for a unique one, 2 for one that may
/// stand twice.
#[derive(Clone, Copy, Debug)]
pub struct KeyedName {
    pub name: Name8,
    pub seq: u8,
}

/// The segment and the database that an LCHILD names.
#[derive(Clone, Copy, Debug)]
pub struct Child {
    pub seg: Name8,
    pub name: Name8,
}

#[tactic(auto, unfolding(crate::specs::Values::name_value))]
pub fn name_value(value: &[u8]) -> Result<Name8, ReadError>
    ensures { Gives (λ x. x) result (name_value value.now) }
{
    match Name8::read(value) {
        Some(name) => Ok(name),
        None => Err(ReadError::Rule(17)),
    }
}

fn is_name_byte(byte: u8) -> bool
    ensures { result ≡ is_name_byte (upper byte) }
{
    matches!(upper_case(byte), b'A'..=b'Z' | b'#' | b'@' | b'$' | b'0'..=b'9')
}

fn all_in_names(text: &[u8]) -> bool
    ensures { result ≡ list_all is_name_byte (map upper text.now) }
{
    text.iter().all(|byte| is_name_byte(*byte))
}

/// Whether the bytes name a system-related field.
pub fn is_system_name(value: &[u8]) -> bool
    ensures { result ≡ is_system_name (map upper value.now) }
{
    match value {
        [b'/', b'S' | b's', b'X' | b'x', more @ ..] => all_in_names(more) && more.len() <= 5,
        _ => false,
    }
}

/// The name of a field or of a portion of the concatenated key.
pub fn field_in(value: &[u8]) -> Option<Name8>
    ensures { result ≡ (if is_field_name (map upper value.now) then Some (map upper value.now) else None) }
{
    match Name8::read(value) {
        Some(name) => Some(name),
        None => Name8::read_portion(value),
    }
}

/// A name, or that of a portion of the concatenated key.
#[tactic(auto, unfolding(crate::specs::Values::field_value))]
pub fn field_value(value: &[u8]) -> Result<Name8, ReadError>
    ensures { Gives (λ x. x) result (field_value value.now) }
{
    match field_in(value) {
        Some(name) => Ok(name),
        None => {
            if is_system_name(value) {
                Err(ReadError::Rule(18))
            } else {
                Err(ReadError::Rule(17))
            }
        }
    }
}

/// The number that a value writes.
fn number_in(value: &[u8]) -> Option<u32>
    ensures { result ≡ (if is_number value.now then Some (number_of value.now) else None) }
{
    if value.is_empty() || !are_digits(value) {
        return None;
    }
    let number = number_of(value);
    if number < 4_294_967_296 {
        Some(number as u32)
    } else {
        None
    }
}

pub fn is_number(value: &[u8]) -> bool
    ensures { result ≡ is_number value.now }
{
    number_in(value).is_some()
}

#[tactic(auto, unfolding(crate::specs::Values::number_value))]
pub fn number_value(value: &[u8]) -> Result<u32, ReadError>
    ensures { Gives (λ x. x) result (number_value value.now) }
{
    match number_in(value) {
        Some(number) => Ok(number),
        None => Err(ReadError::Rule(17)),
    }
}

fn method_of(name: &[u8]) -> Option<bool>
    ensures { result ≡ method_of name.now }
{
    if name == b"PHDAM".as_slice() {
        Some(true)
    } else if name == b"PHIDAM".as_slice() {
        Some(false)
    } else {
        None
    }
}

#[tactic(auto, unfolding(crate::specs::Values::access_of))]
fn access_of(names: &[Bytes]) -> Option<bool>
    ensures { result ≡ access_of names.now }
{
    match names {
        [name] => method_of(name.as_slice()),
        [name, access] => {
            let access = access.as_slice();
            if access == b"VSAM".as_slice() || access == b"OSAM".as_slice() {
                method_of(name.as_slice())
            } else {
                None
            }
        }
        _ => None,
    }
}

pub fn is_name(value: &[u8]) -> bool
    ensures { result ≡ is_name (map upper value.now) }
{
    Name8::read(value).is_some()
}

fn are_names(names: &[Bytes]) -> bool
    ensures { result ≡ list_all (λ name. is_name (map upper name)) names.now }
{
    names.iter().all(|name| is_name(name.as_slice()))
}

/// Whether the access method is PHDAM; else it is PHIDAM.
#[tactic(auto, unfolding(crate::specs::Values::access_value))]
pub fn access_value(alloc: Global, value: &[u8]) -> Result<bool, ReadError>
    ensures { Gives (λ x. x) result (access_value value.now) }
{
    let names = parts(alloc, value)?;
    match access_of(names.as_slice()) {
        Some(phdam) => Ok(phdam),
        None => {
            if are_names(names.as_slice()) {
                Err(ReadError::Rule(18))
            } else {
                Err(ReadError::Rule(17))
            }
        }
    }
}

fn is_optional_number(value: &[u8]) -> bool
    ensures { result ≡ is_optional_number value.now }
{
    value.is_empty() || number_in(value).is_some()
}

fn are_optional_numbers(values: &[Bytes]) -> bool
    ensures { result ≡ list_all is_optional_number values.now }
{
    values
        .iter()
        .all(|value| is_optional_number(value.as_slice()))
}

/// The first number, 1 where there is none.
fn first_number(values: &[Bytes]) -> u32
    ensures { result ≡ first_number values.now }
{
    match values {
        [value, ..] => number_in(value.as_slice()).unwrap_or(1),
        [] => 1,
    }
}

fn second_number(values: &[Bytes]) -> u32
    ensures { result ≡ first_number (drop 1 values.now) }
{
    match values {
        [_, more @ ..] => first_number(more),
        [] => 1,
    }
}

#[tactic(auto, unfolding(crate::specs::Values::rmname_of))]
fn rmname_of(items: &[Bytes]) -> Result<RmName, ReadError>
    ensures { Gives (λ x. x) result (rmname_of items.now) }
{
    let [name, numbers @ ..] = items else {
        return Err(ReadError::Rule(17));
    };
    let module_name = name_value(name.as_slice())?;
    if !are_optional_numbers(numbers) {
        return Err(ReadError::Rule(17));
    }
    Ok(RmName {
        module_name,
        anch: first_number(numbers),
        rbn: second_number(numbers),
    })
}

/// The parts of a list; a value alone isn't readable.
pub fn in_list(alloc: Global, value: &[u8]) -> Result<List<Bytes>, ReadError>
    ensures { Gives (λ x. x) result (in_list (inside value.now)) }
{
    match inside(value) {
        Some(text) => Ok(pieces(alloc, text)?),
        None => Err(ReadError::Rule(17)),
    }
}

#[tactic(auto, unfolding(crate::specs::Values::rmname_value))]
pub fn rmname_value(alloc: Global, value: &[u8]) -> Result<RmName, ReadError>
    ensures { Gives (λ x. x) result (rmname_value value.now) }
{
    let items = in_list(alloc, value)?;
    rmname_of(items.as_slice())
}
