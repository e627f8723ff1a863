// Names, as DBD source has them.
ghost use Rattle.std.specs.Prelude.{◌≡◌, ◌≤◌, ◌↔◌, IsTrue, SomeIff, length, map};
ghost use Rattle.std.specs.Str.{bytes_eq};
ghost use Rattle.std.specs.Cmp.Lexicographic.{nat_list_eq_equiv};
ghost use Rattle.std.specs.Cmp.{partial_equiv_from_equiv};
ghost use Rattle.std.specs.List.{list_all};
ghost use Rattle.hal_base.specs.Name.{is_name, is_field_name, is_portion_name, is_name_letter, is_name_byte, padded, upper};

use std::marker::Model;

/// A name of 1 to 8 bytes: `A` to `Z`, `0` to `9`, `#`, `@` and `$`, the first no digit; or the name of a
/// portion of the concatenated key, which is `/CK` and 0 to 5 such bytes. Contracts see it as the list of
/// these bytes.
#[derive(Clone, Copy, Debug)]
pub struct Name8 {
    letters: [u8; 8],
    len: u8,
}

impl Model for Name8 {
    ghost use Rattle.std.specs.Prelude.{◌≡◌, ◌≤◌, List, ℕ, length, take};

    ghost Value = { List ℕ };

    ghost use Rattle.hal_base.specs.Name.{padded};
    ghost use Rattle.hal_base.specs.StoredName.{IsStored, stored_back};

    ghost view = { λ n. take n.len n.letters };

    ghost invariant = { λ n. IsStored n.letters n.len };

    ghost inverse = { λ name. record { letters = padded name; len = length name } };

    ghost inverse_ok = { λ a h. stored_back a h };
}

impl Name8 {
    /// The name that these bytes spell, a lower-case letter taken as its upper-case one; none where they
    /// spell no name.
    pub fn read(text: &[u8]) -> Option<Name8>
        ensures { SomeIff result (IsTrue (is_name (map upper text.now))) (map upper text.now) }
    {
        if !spells_name(text) {
            return None;
        }
        Some(Name8 {
            letters: stored(text),
            len: text.len() as u8,
        })
    }

    /// The name of a portion of the concatenated key that these bytes spell, `/CK` and what follows it.
    pub fn read_portion(text: &[u8]) -> Option<Name8>
        ensures { SomeIff result (IsTrue (is_portion_name (map upper text.now))) (map upper text.now) }
    {
        if !spells_portion(text) {
            return None;
        }
        Some(Name8 {
            letters: stored(text),
            len: text.len() as u8,
        })
    }

    pub fn as_slice(&self) -> &[u8]
        ensures same { result.now ≡ self.now }
        ensures name { IsTrue (is_field_name self.now) }
        ensures short { length self.now ≤ 8 }
    {
        &self.letters[..self.len as usize]
    }
}

impl PartialEq for Name8 {
    ghost eq = { bytes_eq };

    ghost laws = { partial_equiv_from_equiv nat_list_eq_equiv };

    fn eq(&self, other: &Name8) -> bool {
        self.as_slice() == other.as_slice()
    }
}

impl Eq for Name8 {
    ghost laws = { nat_list_eq_equiv };
}

/// A lower-case letter as its upper-case one, every other byte as it is.
pub fn upper_case(byte: u8) -> u8
    ensures { result ≡ upper byte }
{
    byte.to_ascii_uppercase()
}

fn is_letter(byte: u8) -> bool
    ensures { result ≡ is_name_letter byte }
{
    matches!(byte, b'A'..=b'Z' | b'#' | b'@' | b'$')
}

fn is_digit_or_letter(byte: u8) -> bool
    ensures { result ≡ is_name_byte byte }
{
    is_letter(byte) || matches!(byte, b'0'..=b'9')
}

fn spells_name(text: &[u8]) -> bool
    ensures { IsTrue result ↔ IsTrue (is_name (map upper text.now)) }
{
    match text {
        [] => false,
        [first, more @ ..] => {
            is_letter(upper_case(*first)) && all_in_names(more) && more.len() <= 7
        }
    }
}

fn spells_portion(text: &[u8]) -> bool
    ensures { IsTrue result ↔ IsTrue (is_portion_name (map upper text.now)) }
{
    match text {
        [b'/', b'C' | b'c', b'K' | b'k', more @ ..] => all_in_names(more) && more.len() <= 5,
        _ => false,
    }
}

fn all_in_names(text: &[u8]) -> bool
    ensures { result ≡ list_all is_name_byte (map upper text.now) }
{
    text.iter()
        .all(|byte| is_digit_or_letter(upper_case(*byte)))
}

fn stored(text: &[u8]) -> [u8; 8]
    requires { length text.now ≤ 8 }
    ensures { result ≡ padded (map upper text.now) }
{
    let mut letters = [b' '; 8];
    for (i, byte) in text.iter().enumerate() {
        letters[i] = upper_case(*byte);
    }
    letters
}
