// Big-endian numbers in blocks.
ghost use Rattle.std.specs.Prelude.{◌≡◌, ◌+◌, ◌≤◌, ◌++◌, length, take, drop, slice_range};
ghost use Rattle.std.specs.Int.{w16, w32, to_be_bytes, from_be_bytes};

/// The 16-bit number whose first byte is at `at`.
pub fn get16(bytes: &[u8], at: usize) -> u16
    requires { at + 2 ≤ length bytes.now }
    ensures { result ≡ from_be_bytes w16 (take 2 (drop at bytes.now)) }
{
    let field = &bytes[at..];
    u16::from_be_bytes([field[0], field[1]])
}

/// The 32-bit number whose first byte is at `at`.
pub fn get32(bytes: &[u8], at: usize) -> u32
    requires { at + 4 ≤ length bytes.now }
    ensures { result ≡ from_be_bytes w32 (take 4 (drop at bytes.now)) }
{
    let field = &bytes[at..];
    u32::from_be_bytes([field[0], field[1], field[2], field[3]])
}

/// Writes a 16-bit number from `at` on, and no other byte.
pub fn put16(bytes: &mut [u8], at: usize, value: u16)
    requires { at + 2 ≤ length bytes.old }
    ensures { bytes.new ≡ take at bytes.old ++ to_be_bytes w16 value ++ drop (at + 2) bytes.old }
{
    bytes[at..at + 2].copy_from_slice(&value.to_be_bytes());
}

/// Writes a 32-bit number from `at` on, and no other byte.
pub fn put32(bytes: &mut [u8], at: usize, value: u32)
    requires { at + 4 ≤ length bytes.old }
    ensures { bytes.new ≡ take at bytes.old ++ to_be_bytes w32 value ++ drop (at + 4) bytes.old }
{
    bytes[at..at + 4].copy_from_slice(&value.to_be_bytes());
}
