// What a session's processing options allow.
ghost use Rattle.std.specs.Prelude.{◌≡◌, ◌==◌};
ghost use Rattle.std.specs.List.{list_any};
ghost use Rattle.dli_calls.specs.Refusals.{allows, is_not_allowed};

use crate::functions::{is_delete, is_get, is_insert, is_replace};
use call_text::Call;
use position_state::Session;

/// A function that the session's processing options don't allow, or an ISRT or a DLET in a session by an index. R and D
/// include G, and A stands for all. IMS: PROCOPT, status code AM.
pub fn is_not_allowed(session: &Session, call: &Call) -> bool
    ensures { result ≡ is_not_allowed session.now call.now }
{
    let by_index = session.index.is_some();
    is_get(call) && !allows(b"GRDA", session)
        || is_insert(call) && (!allows(b"IA", session) || by_index)
        || is_replace(call) && !allows(b"RA", session)
        || is_delete(call) && (!allows(b"DA", session) || by_index)
}

fn allows(letters: &[u8], session: &Session) -> bool
    ensures { result ≡ allows letters.now session.now }
{
    session
        .options
        .as_slice()
        .iter()
        .any(|option| is_among(*option, letters))
}

fn is_among(option: u8, letters: &[u8]) -> bool
    ensures { result ≡ list_any (λ letter. option == letter) letters.now }
{
    letters.iter().any(|letter| option == *letter)
}
