// Words of a statement.
ghost use Rattle.std.specs.Prelude.{◌≡◌, ◌≤◌, length};
ghost use Rattle.std.specs.List.{prefix_len, take_while};
ghost use Rattle.dbd_reader.specs.Words.{is_blank, is_dark, past, word_at, behind_word, name_in, word_named, statement_word, from_word, word_of, operands_of, comment_of, ends_in_comma};

use hal_base::Name8;

/// A statement word of DBD source.
#[derive(Clone, Copy, Debug, PartialEq, Eq)]
pub enum Word {
    Dbd,
    Dataset,
    Segm,
    Field,
    Lchild,
    Xdfld,
    Dbdgen,
    Finish,
    End,
    /// TITLE, PRINT, SPACE or EJECT.
    Passed,
}

fn is_blank(byte: u8) -> bool
    ensures { result ≡ is_blank byte }
{
    byte == b' '
}

fn blanks(text: &[u8]) -> usize
    ensures count { result ≡ prefix_len is_blank text.now }
    ensures within { result ≤ length text.now }
{
    text.iter().take_while(|byte| **byte == b' ').count()
}

fn word_len(text: &[u8]) -> usize
    ensures count { result ≡ prefix_len is_dark text.now }
    ensures within { result ≤ length text.now }
{
    text.iter().take_while(|byte| **byte != b' ').count()
}

pub fn past_blanks(text: &[u8]) -> &[u8]
    ensures { result.now ≡ past is_blank text.now }
{
    &text[blanks(text)..]
}

fn word_at(text: &[u8]) -> &[u8]
    ensures { result.now ≡ word_at text.now }
{
    let text = past_blanks(text);
    &text[..word_len(text)]
}

fn behind_word(text: &[u8]) -> &[u8]
    ensures { result.now ≡ behind_word text.now }
{
    let text = past_blanks(text);
    &text[word_len(text)..]
}

/// The name that a text spells.
pub fn name_in(text: &[u8]) -> Option<Name8>
    ensures { result ≡ name_in text.now }
{
    Name8::read(text)
}

fn word_named(name: &[u8]) -> Option<Word>
    ensures { result ≡ word_named name.now }
{
    if name == b"DBD".as_slice() {
        Some(Word::Dbd)
    } else if name == b"DATASET".as_slice() {
        Some(Word::Dataset)
    } else if name == b"SEGM".as_slice() {
        Some(Word::Segm)
    } else if name == b"FIELD".as_slice() {
        Some(Word::Field)
    } else if name == b"LCHILD".as_slice() {
        Some(Word::Lchild)
    } else if name == b"XDFLD".as_slice() {
        Some(Word::Xdfld)
    } else if name == b"DBDGEN".as_slice() {
        Some(Word::Dbdgen)
    } else if name == b"FINISH".as_slice() {
        Some(Word::Finish)
    } else if name == b"END".as_slice() {
        Some(Word::End)
    } else if name == b"TITLE".as_slice() {
        Some(Word::Passed)
    } else if name == b"PRINT".as_slice() {
        Some(Word::Passed)
    } else if name == b"SPACE".as_slice() {
        Some(Word::Passed)
    } else if name == b"EJECT".as_slice() {
        Some(Word::Passed)
    } else {
        None
    }
}

#[tactic(auto, unfolding(crate::specs::Words::statement_word))]
fn statement_word(text: &[u8]) -> Option<Word>
    ensures { result ≡ statement_word text.now }
{
    let name = name_in(text)?;
    word_named(name.as_slice())
}

#[tactic(auto, unfolding(crate::specs::Words::from_word))]
fn from_word(text: &[u8]) -> &[u8]
    ensures { result.now ≡ from_word text.now }
{
    if statement_word(word_at(text)).is_some() {
        text
    } else {
        behind_word(text)
    }
}

/// The statement word, behind a label where there is one.
#[tactic(auto, unfolding(crate::specs::Words::word_of))]
pub fn word_of(text: &[u8]) -> Option<Word>
    ensures { result ≡ word_of text.now }
{
    statement_word(word_at(from_word(text)))
}

#[tactic(auto, unfolding(crate::specs::Words::operands_of))]
pub fn operands_of(text: &[u8]) -> &[u8]
    ensures { result.now ≡ operands_of text.now }
{
    word_at(behind_word(from_word(text)))
}

/// What stands behind the operands.
#[tactic(auto, unfolding(crate::specs::Words::comment_of))]
pub fn comment_of(text: &[u8]) -> &[u8]
    ensures { result.now ≡ comment_of text.now }
{
    behind_word(behind_word(from_word(text)))
}

pub fn ends_in_comma(operands: &[u8]) -> bool
    ensures { result ≡ ends_in_comma operands.now }
{
    operands.last().is_some_and(|byte| *byte == b',')
}
