// Values as text.
ghost use Rattle.std.specs.Prelude.{◌≡◌, ◌<◌, ◌++◌, OnOk, IsTrue, ◌↔◌};
ghost use Rattle.std.specs.List.{list_all, flat_map};
ghost use Rattle.std.specs.Fmt.{decimal};
ghost use Rattle.call_text.specs.Printing.{doubled, quoted, hex_digit, hex_pair, in_hex, printed_value};

use hal_base::{Bytes, Memory, are_printable};
use std::alloc::Global;

fn hex_digit(n: u8) -> u8
    requires { n < 16 }
    ensures { result ≡ hex_digit n }
{
    if n < 10 { b'0' + n } else { b'A' - 10 + n }
}

fn put_quoted(out: &mut Bytes, bytes: &[u8]) -> Result<(), Memory>
    ensures { OnOk result (out.new ≡ out.old ++ quoted bytes.now) }
{
    out.push(b'\'')?;
    put_doubled(out, bytes)?;
    out.push(b'\'')?;
    Ok(())
}

fn put_doubled(out: &mut Bytes, bytes: &[u8]) -> Result<(), Memory>
    ensures { OnOk result (out.new ≡ out.old ++ flat_map doubled bytes.now) }
{
    for byte in bytes {
        put_text_byte(out, *byte)?;
    }
    Ok(())
}

fn put_text_byte(out: &mut Bytes, byte: u8) -> Result<(), Memory>
    ensures { OnOk result (out.new ≡ out.old ++ doubled byte) }
{
    if byte == b'\'' {
        out.append(b"''")
    } else {
        out.push(byte)
    }
}

fn put_hex(out: &mut Bytes, bytes: &[u8]) -> Result<(), Memory>
    ensures { OnOk result (out.new ≡ out.old ++ in_hex bytes.now) }
{
    out.append(b"X'")?;
    put_hex_pairs(out, bytes)?;
    out.push(b'\'')?;
    Ok(())
}

fn put_hex_pairs(out: &mut Bytes, bytes: &[u8]) -> Result<(), Memory>
    ensures { OnOk result (out.new ≡ out.old ++ flat_map hex_pair bytes.now) }
{
    for byte in bytes {
        put_hex_pair(out, *byte)?;
    }
    Ok(())
}

fn put_hex_pair(out: &mut Bytes, byte: u8) -> Result<(), Memory>
    ensures { OnOk result (out.new ≡ out.old ++ hex_pair byte) }
{
    out.append(&[hex_digit(byte / 16), hex_digit(byte % 16)])
}

/// Writes the bytes as a value: as text where all are printable, else in hex.
#[tactic(auto, unfolding(crate::specs::Printing::printed_value))]
pub fn put_value(out: &mut Bytes, bytes: &[u8]) -> Result<(), Memory>
    ensures { OnOk result (out.new ≡ out.old ++ printed_value bytes.now) }
{
    if are_printable(bytes) {
        put_quoted(out, bytes)
    } else {
        put_hex(out, bytes)
    }
}
