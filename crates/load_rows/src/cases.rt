// Loads into empty lists, as cases.
ghost use Rattle.std.specs.Prelude.{◌≡◌, IsTrue, IfOk};

use crate::ListTaker;
use hal_base::{Bytes, Memory};
use hal_loader::{LoadFault, load, unload_row};
use hal_schema::{Row, Schema};
use std::alloc::Global;

/// A text that is loaded, how many rows it loads or the first one that breaks a rule, the code of that rule (empty where
/// none is broken), and the text of the rows that are there then.
pub type Case = (&'static str, u32, &'static str, &'static str);

/// The place of the first case that isn't so. Where all rows are loaded, their text has to load to the same text again.
pub fn first_wrong(
    alloc: Global,
    schema: &Schema,
    free: u32,
    cases: &[Case],
) -> Result<Option<usize>, Memory> {
    for (place, case) in cases.iter().enumerate() {
        if !is_so(alloc, schema, free, case)? {
            return Ok(Some(place));
        }
    }
    Ok(None)
}

fn is_so(alloc: Global, schema: &Schema, free: u32, case: &Case) -> Result<bool, Memory> {
    let (text, row, code, rows) = *case;
    if !loads_as(alloc, schema, free, text, (row, code, rows))? {
        return Ok(false);
    }
    if !code.is_empty() {
        return Ok(true);
    }
    loads_as(alloc, schema, free, rows, (row, code, rows))
}

/// Whether a load of a text into an empty list says this row and code, and leaves these rows.
fn loads_as(
    alloc: Global,
    schema: &Schema,
    free: u32,
    text: &str,
    wanted: (u32, &str, &str),
) -> Result<bool, Memory> {
    if text.len() > 10_000 {
        return Ok(false);
    }
    let mut taker = ListTaker::new(alloc, schema.copy(alloc)?, free);
    let answer = load(alloc, schema, text.as_bytes(), &mut taker);
    let unloaded = unloaded(alloc, schema, &taker)?;
    let (row, code, rows) = wanted;
    Ok(is_answer(answer, row, code) && unloaded.as_slice() == rows.as_bytes())
}

fn is_answer(answer: Result<u32, LoadFault>, row: u32, code: &str) -> bool
    ensures { IfOk answer (λ count. IsTrue result → count ≡ row) }
{
    match answer {
        Ok(count) => count == row && code.is_empty(),
        Err(
            LoadFault::Row {
                row: broken,
                code: why,
            },
        ) => broken == row && why.as_slice() == code.as_bytes(),
        Err(_) => false,
    }
}

/// The text of all rows.
fn unloaded(alloc: Global, schema: &Schema, taker: &ListTaker) -> Result<Bytes, Memory> {
    let mut text = Bytes::new(alloc);
    for row in taker.rows() {
        append_row(&mut text, alloc, schema, row)?;
    }
    Ok(text)
}

fn append_row(text: &mut Bytes, alloc: Global, schema: &Schema, row: &Row) -> Result<(), Memory> {
    if row.code > 0 && row.code as usize <= schema.types.len() {
        let line = unload_row(alloc, schema, row)?;
        text.append(line.as_slice())?;
    }
    Ok(())
}

/// Whether a load into a list with a row is refused, and leaves that row alone there.
pub fn refuses_a_second_load(alloc: Global, schema: &Schema) -> Result<bool, Memory> {
    let mut taker = ListTaker::new(alloc, schema.copy(alloc)?, 40);
    let first = load(alloc, schema, b"R,T,001aa\n", &mut taker);
    let second = load(alloc, schema, b"R,T,002bb\n", &mut taker);
    let is_refused = matches!(second, Err(LoadFault::NotEmpty));
    Ok(is_answer(first, 1, "") && is_refused && taker.rows().len() == 1)
}
