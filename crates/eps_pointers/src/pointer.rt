// Extended pointers and entries of the indirect list, as the bytes of rows.
ghost use Rattle.std.specs.Prelude.{◌≡◌, ◌≤◌, length};
ghost use Rattle.eps_pointers.specs.Layout.{name_bytes, name_in, eps_bytes, eps_in, home_bytes, ile_bytes, ile_in, list_key};

use hal_base::{Ilk, get16, get32, put16, put32};

/// An extended pointer set: the target's partition, the reorganization number of the side on which its cell was when the
/// pointer was made or healed, the cell's address there, and the target's name for life. IMS: EPS.
#[derive(Clone, Copy, Debug, PartialEq, Eq)]
pub struct Eps {
    pub part: u16,
    pub number: u16,
    pub addr: u32,
    pub ilk: Ilk,
}

/// An entry of the indirect list: a cell's address, and the reorganization number of the side where it is. IMS: ILE.
#[derive(Clone, Copy, Debug, PartialEq, Eq)]
pub struct Ile {
    pub addr: u32,
    pub number: u16,
}

/// The eight bytes of a name.
fn write_name(name: Ilk) -> [u8; 8]
    ensures { result ≡ name_bytes name }
{
    let mut bytes = [0; 8];
    put32(&mut bytes, 0, name.addr);
    put16(&mut bytes, 4, name.part);
    put16(&mut bytes, 6, name.number);
    bytes
}

/// The name whose bytes are at the front.
fn name_of(bytes: &[u8]) -> Ilk
    requires { 8 ≤ length bytes.now }
    ensures { result ≡ name_in bytes.now }
{
    Ilk {
        addr: get32(bytes, 0),
        part: get16(bytes, 4),
        number: get16(bytes, 6),
    }
}

/// The bytes of an extended pointer: partition, number, address, name.
pub fn write_eps(e: Eps) -> [u8; 16]
    ensures { result ≡ eps_bytes e }
{
    let mut bytes = [0; 16];
    put16(&mut bytes, 0, e.part);
    put16(&mut bytes, 2, e.number);
    put32(&mut bytes, 4, e.addr);
    bytes[8..].copy_from_slice(&write_name(e.ilk));
    bytes
}

/// The bytes that stand at 2 in those of a pointer: number, address.
pub fn write_home(number: u16, addr: u32) -> [u8; 6]
    ensures { result ≡ home_bytes number addr }
{
    let mut bytes = [0; 6];
    put16(&mut bytes, 0, number);
    put32(&mut bytes, 2, addr);
    bytes
}

pub fn read_eps(b: &[u8; 16]) -> Eps
    ensures { result ≡ eps_in b.now }
{
    Eps {
        part: get16(b, 0),
        number: get16(b, 2),
        addr: get32(b, 4),
        ilk: name_of(&b[8..]),
    }
}

/// The bytes of an entry of the indirect list: address, number.
pub fn write_ile(i: Ile) -> [u8; 6]
    ensures { result ≡ ile_bytes i }
{
    let mut bytes = [0; 6];
    put32(&mut bytes, 0, i.addr);
    put16(&mut bytes, 4, i.number);
    bytes
}

pub fn read_ile(b: &[u8; 6]) -> Ile
    ensures { result ≡ ile_in b.now }
{
    entry_of(b)
}

/// The entry whose bytes are at the front.
pub(crate) fn entry_of(bytes: &[u8]) -> Ile
    requires { 6 ≤ length bytes.now }
    ensures { result ≡ ile_in bytes.now }
{
    Ile {
        addr: get32(bytes, 0),
        number: get16(bytes, 4),
    }
}

/// The key of the indirect list's row of a segment: its name, and the code of its type.
pub fn list_key(ilk: Ilk, code: u8) -> [u8; 9]
    ensures { result ≡ list_key ilk code }
{
    let mut bytes = [0; 9];
    bytes[..8].copy_from_slice(&write_name(ilk));
    bytes[8] = code;
    bytes
}
