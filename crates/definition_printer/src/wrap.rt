// Statements on lines of at most 71 bytes.
ghost use Rattle.std.specs.Prelude.{◌≡◌, ◌+◌, ◌<◌, ◌≤◌, ◌==◌, ◌∷◌, ◌++◌, if◌then◌else◌, length, OnOk, IfOk};
ghost use Rattle.std.specs.List.{position_or_len};
ghost use Rattle.definition_printer.specs.Wrapped.{pieces, line_end, room_behind, wrapped};

use hal_base::{Bytes, Memory};

fn comma_len(text: &[u8]) -> usize
    ensures count { result ≡ position_or_len (λ b. b == 44) text.now }
    ensures within { result ≤ length text.now }
{
    text.iter().take_while(|byte| **byte != b',').count()
}

/// The bytes up to and with the first comma, and those behind.
fn split_piece(text: &[u8]) -> (&[u8], &[u8])
    requires { 0 < length text.now }
    ensures pieces { pieces text.now ≡ result.0.now ∷ pieces result.1.now }
    ensures shorter { length result.1.now < length text.now }
{
    let len = comma_len(text);
    if len < text.len() {
        text.split_at(len + 1)
    } else {
        text.split_at(len)
    }
}

/// Ends the line where it has no room for a piece, and gives the room behind the piece.
fn begin_piece(out: &mut Bytes, room: usize, len: usize) -> Result<usize, Memory>
    ensures room { IfOk result (λ left. left ≡ room_behind room len) }
    ensures line { OnOk result (out.new ≡ out.old ++ line_end room len) }
{
    if len <= room {
        return Ok(room - len);
    }
    out.append(b"\n ")?;
    Ok(70usize.saturating_sub(len))
}

/// Writes a statement and the end of its last line.
#[tactic(auto, unfolding(crate::specs::Wrapped::wrapped))]
pub fn put_wrapped(out: &mut Bytes, statement: &[u8]) -> Result<(), Memory>
    ensures { OnOk result (out.new ≡ out.old ++ wrapped statement.now) }
{
    let mut room = 71;
    let mut rest = statement;
    while !rest.is_empty() {
        let (piece, behind) = split_piece(rest);
        room = begin_piece(out, room, piece.len())?;
        out.append(piece)?;
        rest = behind;
    }
    out.push(b'\n')?;
    Ok(())
}
