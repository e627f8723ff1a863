// Lines as text.
ghost use Rattle.std.specs.Prelude.{◌≡◌, ◌≤◌, ◌++◌, ℕ, List, length, OnOk, IfOk};
ghost use Rattle.std.specs.List.{list_all, flat_map};
ghost use Rattle.call_text.specs.Printing.{printed_value};
ghost use Rattle.call_text.specs.Printed.{is_sign, operator_text, bytes_of, clause_text, connector, joined_clause, clauses_text, codes_text};
ghost use Rattle.call_text.specs.Printed.{ssa_text, next_ssa, given_text, call_text, index_text, open_text, command_word, count_text};
ghost use Rattle.call_text.specs.Printed.{reorg_text, printed_line, HasForm};
ghost use Rattle.call_text.specs.Plain.{plain_line, IsPlain};
ghost use Rattle.call_text.specs.Spelling.{Spells};

use crate::values::put_value;
use crate::{Call, Clause, Command, Line, Open, Ssa, Value};
use hal_base::{Bytes, Memory, Name8, put_number};
use std::alloc::Global;

pub fn is_sign(byte: u8) -> bool
    ensures { result ≡ is_sign byte }
{
    matches!(byte, b'=' | b'<' | b'>' | b'!')
}

pub fn all_signs(bytes: &[u8]) -> bool
    ensures { result ≡ list_all is_sign bytes.now }
{
    bytes.iter().all(|byte| is_sign(*byte))
}

fn put_operator(out: &mut Bytes, op: &[u8]) -> Result<(), Memory>
    ensures { OnOk result (out.new ≡ out.old ++ operator_text op.now) }
{
    if all_signs(op) {
        return out.append(op);
    }
    out.push(b' ')?;
    out.append(op)?;
    out.push(b' ')
}

fn bytes_of(value: &Value) -> &[u8]
    ensures { result.now ≡ bytes_of value.now }
{
    match value {
        Value::Text(bytes) => bytes.as_slice(),
        Value::Hex(bytes) => bytes.as_slice(),
    }
}

#[tactic(auto, unfolding(crate::specs::Printed::clause_text))]
fn put_clause(out: &mut Bytes, clause: &Clause) -> Result<(), Memory>
    ensures { OnOk result (out.new ≡ out.old ++ clause_text clause.now) }
{
    out.append(clause.field.as_slice())?;
    put_operator(out, clause.op.as_slice())?;
    put_value(out, bytes_of(&clause.value))
}

fn put_joined_clause(out: &mut Bytes, clause: &Clause) -> Result<(), Memory>
    ensures { OnOk result (out.new ≡ out.old ++ joined_clause clause.now) }
{
    out.push(if clause.or { b'|' } else { b'&' })?;
    put_clause(out, clause)
}

fn put_joined_clauses(out: &mut Bytes, clauses: &[Clause]) -> Result<(), Memory>
    ensures { OnOk result (out.new ≡ out.old ++ flat_map joined_clause clauses.now) }
{
    for clause in clauses {
        put_joined_clause(out, clause)?;
    }
    Ok(())
}

fn put_clauses(out: &mut Bytes, clauses: &[Clause]) -> Result<(), Memory>
    ensures { OnOk result (out.new ≡ out.old ++ clauses_text clauses.now) }
{
    let [first, more @ ..] = clauses else {
        return Ok(());
    };
    out.push(b'(')?;
    put_clause(out, first)?;
    put_joined_clauses(out, more)?;
    out.push(b')')
}

fn put_codes(out: &mut Bytes, codes: &[u8]) -> Result<(), Memory>
    ensures { OnOk result (out.new ≡ out.old ++ codes_text codes.now) }
{
    if codes.is_empty() {
        return Ok(());
    }
    out.push(b'*')?;
    out.append(codes)
}

#[tactic(auto, unfolding(crate::specs::Printed::ssa_text))]
fn put_ssa(out: &mut Bytes, ssa: &Ssa) -> Result<(), Memory>
    ensures { OnOk result (out.new ≡ out.old ++ ssa_text ssa.now) }
{
    out.append(ssa.seg.as_slice())?;
    put_codes(out, ssa.codes.as_slice())?;
    put_clauses(out, ssa.clauses.as_slice())
}

fn put_next_ssa(out: &mut Bytes, ssa: &Ssa) -> Result<(), Memory>
    ensures { OnOk result (out.new ≡ out.old ++ next_ssa ssa.now) }
{
    out.push(b' ')?;
    put_ssa(out, ssa)
}

fn put_ssas(out: &mut Bytes, ssas: &[Ssa]) -> Result<(), Memory>
    ensures { OnOk result (out.new ≡ out.old ++ flat_map next_ssa ssas.now) }
{
    for ssa in ssas {
        put_next_ssa(out, ssa)?;
    }
    Ok(())
}

fn put_given(out: &mut Bytes, content: &Option<Value>) -> Result<(), Memory>
    ensures { OnOk result (out.new ≡ out.old ++ given_text content.now) }
{
    let Some(value) = content else {
        return Ok(());
    };
    out.append(b" : ")?;
    put_value(out, bytes_of(value))
}

#[tactic(auto, unfolding(crate::specs::Printed::call_text))]
fn put_call(out: &mut Bytes, call: &Call) -> Result<(), Memory>
    ensures { OnOk result (out.new ≡ out.old ++ call_text call.now) }
{
    out.append(call.session.as_slice())?;
    out.push(b' ')?;
    out.append(call.func.as_slice())?;
    put_ssas(out, call.ssas.as_slice())?;
    put_given(out, &call.content)
}

fn put_index(out: &mut Bytes, index: Option<Name8>) -> Result<(), Memory>
    ensures { OnOk result (out.new ≡ out.old ++ index_text index) }
{
    let Some(name) = index else {
        return Ok(());
    };
    out.push(b' ')?;
    out.append(name.as_slice())
}

#[tactic(auto, unfolding(crate::specs::Printed::open_text))]
fn put_open(out: &mut Bytes, request: &Open) -> Result<(), Memory>
    ensures { OnOk result (out.new ≡ out.old ++ open_text request.now) }
{
    out.append(b"PCB ")?;
    out.append(request.session.as_slice())?;
    out.push(b' ')?;
    out.append(request.options.as_slice())?;
    put_index(out, request.index)
}

fn command_word(command: Command) -> &'static [u8]
    ensures { result.now ≡ command_word command }
{
    match command {
        Command::Start => b"START",
        Command::Step(_) => b"STEP",
        Command::Pause => b"PAUSE",
        Command::Resume => b"RESUME",
        Command::Finish => b"FINISH",
        Command::Query => b"QUERY",
    }
}

fn put_count(alloc: Global, out: &mut Bytes, command: Command) -> Result<(), Memory>
    ensures { OnOk result (out.new ≡ out.old ++ count_text command) }
{
    let Command::Step(groups) = command else {
        return Ok(());
    };
    out.push(b' ')?;
    put_number(alloc, out, groups as u32)
}

#[tactic(auto, unfolding(crate::specs::Printed::reorg_text))]
fn put_reorg(alloc: Global, out: &mut Bytes, part: Name8, command: Command) -> Result<(), Memory>
    ensures { OnOk result (out.new ≡ out.old ++ reorg_text part command) }
{
    out.append(b"REORG ")?;
    out.append(command_word(command))?;
    out.push(b' ')?;
    out.append(part.as_slice())?;
    put_count(alloc, out, command)
}

fn printed(alloc: Global, line: &Line) -> Result<Bytes, Memory>
    requires { HasForm line.now }
    ensures { IfOk result (λ text. text ≡ printed_line line.now) }
{
    let mut out = Bytes::new(alloc);
    match line {
        Line::Silent => {}
        Line::Call(call) => put_call(&mut out, call)?,
        Line::Open(request) => put_open(&mut out, request)?,
        Line::Reorg { part, command } => put_reorg(alloc, &mut out, *part, *command)?,
        Line::Bad(_) => unreachable!(),
    }
    Ok(out)
}

/// The printed form of a line. A silent line's is empty.
pub fn print_line(alloc: Global, line: &Line) -> Result<Bytes, Memory>
    requires { HasForm line.now }
    ensures exact { IfOk result (λ text. text ≡ printed_line line.now) }
    // Where it isn't too long it spells the line that it came from, but that a hexadecimal value of printable
    // bytes alone is a text.
    ensures again { (text : List ℕ) → Spells text line.now → length (printed_line line.now) ≤ 8192 → Spells (printed_line line.now) (plain_line line.now) }
    // That line prints the same, and is the very line where there is no such value.
    ensures same { printed_line (plain_line line.now) ≡ printed_line line.now }
    ensures kept { IsPlain line.now → plain_line line.now ≡ line.now }
{
    printed(alloc, line)
}
