// Bytes and numbers of texts.
ghost use Rattle.std.specs.Prelude.{◌≡◌, ◌++◌, OnOk, IsTrue, decimal, min};
ghost use Rattle.std.specs.List.{list_all};
ghost use Rattle.hal_base.specs.Bytes.{is_printable};
ghost use Rattle.hal_base.specs.Name.{is_digit};
ghost use Rattle.hal_base.specs.Numbers.{number_of};

use crate::{Bytes, Memory};
use std::alloc::Global;

/// A blank to a tilde, as ASCII has them.
pub fn is_printable(byte: u8) -> bool
    ensures { result ≡ is_printable byte }
{
    matches!(byte, b' '..=b'~')
}

pub fn are_printable(text: &[u8]) -> bool
    ensures { result ≡ list_all is_printable text.now }
{
    text.iter().all(|byte| is_printable(*byte))
}

pub fn are_digits(text: &[u8]) -> bool
    ensures { result ≡ list_all is_digit text.now }
{
    text.iter().all(|byte| matches!(byte, b'0'..=b'9'))
}

/// The number that digits write; one that has more than 32 bits as the least such number.
pub fn number_of(digits: &[u8]) -> u64
    requires { IsTrue (list_all is_digit digits.now) }
    ensures { result ≡ min (number_of digits.now) 4294967296 }
{
    let mut number: u64 = 0;
    for digit in digits {
        number = (10 * number + (*digit - b'0') as u64).min(4_294_967_296);
    }
    number
}

/// Writes a number in decimal behind what a text has.
pub fn put_number(alloc: Global, out: &mut Bytes, number: u32) -> Result<(), Memory>
    ensures { OnOk result (out.new ≡ out.old ++ decimal number) }
{
    let digits = format!(in alloc; "{number}")?;
    out.append(digits.as_bytes())
}
