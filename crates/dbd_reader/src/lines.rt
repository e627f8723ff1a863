// Lines of a text.
ghost use Rattle.std.specs.Prelude.{◌≡◌, ◌<◌, ◌≤◌, ◌∷◌, ◌==◌, length, take};
ghost use Rattle.std.specs.List.{list_all, after_first, position_or_len};
ghost use Rattle.std.specs.Str.Lines.{lines, strip_carriage_return};
ghost use Rattle.dbd_reader.specs.Words.{is_blank};
ghost use Rattle.dbd_reader.specs.Lines.{begins_with, is_comment, is_marked, is_readable};

use hal_base::are_printable;

/// The first line, without its end, and what stands behind it.
#[tactic(auto, using(crate::proofs::FirstLine::line_first, crate::proofs::FirstLine::line_last, crate::proofs::FirstLine::behind_last))]
pub fn cut_line(text: &[u8]) -> (&[u8], &[u8])
    requires { 0 < length text.now }
    ensures cut { lines text.now ≡ result.0.now ∷ lines result.1.now }
    ensures behind { result.1.now ≡ after_first (λ b. b == 10) text.now }
    ensures shorter { length result.1.now < length text.now }
{
    let len = line_len(text);
    if len == text.len() {
        return (text, text.split_at(len).1);
    }
    (
        without_return(text.split_at(len).0),
        text.split_at(len + 1).1,
    )
}

fn line_len(text: &[u8]) -> usize
    ensures count { result ≡ position_or_len (λ b. b == 10) text.now }
    ensures within { result ≤ length text.now }
{
    text.iter().take_while(|byte| **byte != b'\n').count()
}

fn without_return(line: &[u8]) -> &[u8]
    ensures { result.now ≡ strip_carriage_return line.now }
{
    match line {
        [front @ .., b'\r'] => front,
        _ => line,
    }
}

/// The columns that are read, up to and with the last one given.
pub fn columns(line: &[u8], last: usize) -> &[u8]
    ensures { result.now ≡ take last line.now }
{
    &line[..line.len().min(last)]
}

fn is_all_blank(text: &[u8]) -> bool
    ensures { result ≡ list_all is_blank text.now }
{
    text.iter().all(|byte| *byte == b' ')
}

pub fn is_comment(line: &[u8]) -> bool
    ensures { result ≡ is_comment line.now }
{
    matches!(line, [b'*', ..]) || is_all_blank(columns(line, 72))
}

/// Whether column 72 says that the statement goes on.
pub fn is_marked(line: &[u8]) -> bool
    ensures { result ≡ is_marked line.now }
{
    line.get(71).is_some_and(|byte| *byte != b' ')
}

pub fn is_readable(line: &[u8]) -> bool
    ensures { result ≡ is_readable line.now }
{
    are_printable(columns(line, 72))
}
