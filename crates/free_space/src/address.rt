// The address of a cell: four bytes that hold the data set's letter, the page and the offset in it.
ghost use Rattle.std.specs.Prelude.{◌≡◌, ◌<◌, ◌/◌, ◌^◌, ◌==◌};
ghost use Rattle.free_space.specs.Address.{address, letter_index, page_at, offset_at};

use hal_base::SetId;

pub(crate) fn address_of(set: SetId, page: u16, offset: u16) -> u32
    requires { offset < 4096 }
    ensures { result ≡ address set page offset }
{
    let letter = set.letter.saturating_sub(b'A') % 12;
    (u32::from(letter) << 28) + (u32::from(page) << 12) + u32::from(offset)
}

/// The address has the letter of the data set.
pub(crate) fn has_letter(set: SetId, at: u32) -> bool
    ensures { result ≡ (at / 2 ^ 28 == letter_index set.letter) }
{
    at >> 28 == u32::from(set.letter.saturating_sub(b'A') % 12)
}

pub(crate) fn page_of(at: u32) -> u16
    ensures { result ≡ page_at at }
{
    ((at >> 12) % 65536) as u16
}

pub(crate) fn offset_of(at: u32) -> u16
    ensures { result ≡ offset_at at }
{
    (at % 4096) as u16
}
