// The form of SSAs.
ghost use Rattle.std.specs.Prelude.{◌≡◌, is_none, None};
ghost use Rattle.std.specs.List.{last_or};
ghost use Rattle.std.specs.Option.{option_copied};
ghost use Rattle.dli_calls.specs.Refusals.{has_odd_code, has_odd_operator, is_bare};
ghost use Rattle.dli_calls.specs.Ssas.{asks_data, asks_last, fitted, operator_of};

use call_text::{Clause, Ssa, Value};

/// Neither command codes nor clauses.
pub fn is_bare(ssa: &Ssa) -> bool
    ensures { result ≡ is_bare ssa.now }
{
    ssa.codes.len() == 0 && ssa.clauses.len() == 0
}

/// A command code that isn't D or L.
pub fn has_odd_code(ssa: &Ssa) -> bool
    ensures { result ≡ has_odd_code ssa.now }
{
    ssa.codes
        .as_slice()
        .iter()
        .any(|code| !(*code == b'D' || *code == b'L'))
}

/// Command code D: this level's data too.
pub fn asks_data(ssa: &Ssa) -> bool
    ensures { result ≡ asks_data ssa.now }
{
    ssa.codes.as_slice().iter().any(|code| *code == b'D')
}

/// Command code L: the last twin.
pub fn asks_last(ssa: &Ssa) -> bool
    ensures { result ≡ asks_last ssa.now }
{
    ssa.codes.as_slice().iter().any(|code| *code == b'L')
}

/// A clause whose operator is none of the six as they are printed (IMS: relational operators).
pub fn has_odd_operator(ssa: &Ssa) -> bool
    ensures { result ≡ has_odd_operator ssa.now }
{
    ssa.clauses
        .as_slice()
        .iter()
        .any(|clause| is_odd_operator(clause.op.as_slice()))
}

fn is_odd_operator(op: &[u8]) -> bool
    ensures { result ≡ is_none (operator_of op.now) }
{
    !(op == b"=".as_slice()
        || op == b">".as_slice()
        || op == b"<".as_slice()
        || op == b">=".as_slice()
        || op == b"<=".as_slice()
        || op == b"NE".as_slice())
}

/// A value that doesn't fit so many bytes: a longer text, or a hex value of another length.
pub fn is_unfit(value: &Value, bytes: usize) -> bool
    ensures { result ≡ is_none (fitted bytes value.now) }
{
    match value {
        Value::Text(text) => text.len() > bytes,
        Value::Hex(text) => text.len() != bytes,
    }
}

pub fn last_of(ssas: &[Ssa]) -> Option<&Ssa>
    ensures { option_copied result ≡ last_or None ssas.now }
{
    let mut last = None;
    for ssa in ssas {
        last = Some(ssa);
    }
    last
}
