// Roots, dependents, new rows, a replaced content and spans that are cut out, on a side of three levels.
ghost use Rattle.std.specs.Prelude.{◌≡◌, ◌<◌, ◌≤◌, false, length, IfOk};

use crate::{
    appends_a_row, builds_levels, changes_content, changes_lowest, crosses_letters, cuts_leaf,
    cuts_levels, cuts_middle_twin, cuts_record, finds_dependents, finds_roots, grows_levels,
    grows_twins, is_laid_out, moves_record, retires_record, walks_levels,
};
use dbd_reader::read_dbd;
use hal_schema::{RawSchema, Schema};
use memory_shelf::QuietShelf;
use partition_reader::read_partitions;
use std::alloc::Global;
use std::test::Fail;

const XDB: &str =
    "DBD NAME=XDB,ACCESS=(PHIDAM)\nSEGM NAME=R,PARENT=0,BYTES=5\nFIELD NAME=(K,SEQ,U),BYTES=3,START=1\nSEGM NAME=C,PARENT=R,BYTES=4\nFIELD NAME=(CK,SEQ,U),BYTES=2,START=1\nSEGM NAME=G,PARENT=C,BYTES=2\nDBDGEN\nEND\n";

const XDB_PARTS: &str = "blocks = 40\n[[partition]]\nname = \"P1\"\nnumber = 1\nhigh = \"999\"\n";

// The same with C in the second letter.
const LETTERS: &str =
    "DBD NAME=XDB,ACCESS=(PHIDAM)\nSEGM NAME=R,PARENT=0,BYTES=5\nFIELD NAME=(K,SEQ,U),BYTES=3,START=1\nSEGM NAME=C,PARENT=R,BYTES=4,DSGROUP=B\nFIELD NAME=(CK,SEQ,U),BYTES=2,START=1\nSEGM NAME=G,PARENT=C,BYTES=2\nDBDGEN\nEND\n";

const DEEP: &str =
    "DBD NAME=XDB,ACCESS=(PHIDAM)\nSEGM NAME=A,PARENT=0,BYTES=5\nFIELD NAME=(K,SEQ,U),BYTES=3,START=1\nSEGM NAME=B,PARENT=A,BYTES=5\nSEGM NAME=C,PARENT=B,BYTES=5\nSEGM NAME=D,PARENT=C,BYTES=5\nSEGM NAME=E,PARENT=D,BYTES=5\nSEGM NAME=F,PARENT=E,BYTES=5\nSEGM NAME=G,PARENT=F,BYTES=5\nSEGM NAME=H,PARENT=G,BYTES=5\nSEGM NAME=I,PARENT=H,BYTES=5\nSEGM NAME=J,PARENT=I,BYTES=5\nSEGM NAME=K,PARENT=J,BYTES=5\nSEGM NAME=L,PARENT=K,BYTES=5\nSEGM NAME=M,PARENT=L,BYTES=5\nSEGM NAME=N,PARENT=M,BYTES=5\nSEGM NAME=O,PARENT=N,BYTES=5\nDBDGEN\nEND\n";

fn read(alloc: Global, text: &str) -> Result<Schema, Fail> {
    let bytes = text.as_bytes();
    if bytes.len() > 9999 {
        return Err(Fail::from("a short definition"));
    }
    let (dbd, _) = read_dbd(alloc, bytes)?;
    let parts = read_partitions(alloc, XDB_PARTS.as_bytes())?;
    Ok(Schema::build(alloc, RawSchema { dbd, parts })?)
}

fn schema_with(alloc: Global, text: &str, types: usize) -> Result<Schema, Fail>
    ensures some { IfOk result (λ schema. 0 < length schema.parts) }
    ensures phidam { IfOk result (λ schema. schema.phdam ≡ false) }
    ensures types { IfOk result (λ schema. types ≤ length schema.types) }
{
    let schema = read(alloc, text)?;
    if schema.parts.is_empty() || schema.phdam || schema.types.len() < types {
        return Err(Fail::from("a PHIDAM definition of so many types"));
    }
    Ok(schema)
}

fn schema_of(alloc: Global) -> Result<Schema, Fail>
    ensures some { IfOk result (λ schema. 0 < length schema.parts) }
    ensures phidam { IfOk result (λ schema. schema.phdam ≡ false) }
    ensures types { IfOk result (λ schema. 3 ≤ length schema.types) }
{
    schema_with(alloc, XDB, 3)
}

fn laid_out(alloc: Global) -> Result<QuietShelf, Fail> {
    let mut shelf = QuietShelf::new(alloc, 8);
    if !is_laid_out(alloc, &mut shelf) {
        return Err(Fail::from("a side of five cells"));
    }
    Ok(shelf)
}

#[test]
fn rows_are_found(rt: HostRuntime) -> Result<(), Fail> {
    let schema = schema_of(rt.alloc())?;
    let mut shelf = laid_out(rt.alloc())?;
    assert!(rt; finds_roots(rt.alloc(), &mut shelf, &schema));
    assert!(rt; finds_dependents(rt.alloc(), &mut shelf, &schema));
    Ok(())
}

#[test]
fn a_content_is_replaced(rt: HostRuntime) -> Result<(), Fail> {
    let schema = schema_of(rt.alloc())?;
    let mut shelf = laid_out(rt.alloc())?;
    assert!(rt; changes_content(rt.alloc(), &mut shelf, &schema));
    Ok(())
}

#[test]
fn spans_are_cut(rt: HostRuntime) -> Result<(), Fail> {
    let schema = schema_of(rt.alloc())?;
    let mut shelf = laid_out(rt.alloc())?;
    assert!(rt; cuts_leaf(rt.alloc(), &mut shelf, &schema));
    let mut shelf = laid_out(rt.alloc())?;
    assert!(rt; cuts_middle_twin(rt.alloc(), &mut shelf, &schema));
    Ok(())
}

#[test]
fn records_are_cut(rt: HostRuntime) -> Result<(), Fail> {
    let schema = schema_of(rt.alloc())?;
    let mut shelf = laid_out(rt.alloc())?;
    assert!(rt; cuts_record(rt.alloc(), &mut shelf, &schema));
    let mut shelf = laid_out(rt.alloc())?;
    assert!(rt; retires_record(rt.alloc(), &mut shelf, &schema));
    Ok(())
}

#[test]
fn rows_are_inserted(rt: HostRuntime) -> Result<(), Fail> {
    let schema = schema_of(rt.alloc())?;
    let mut shelf = QuietShelf::new(rt.alloc(), 8);
    assert!(rt; grows_levels(rt.alloc(), &mut shelf, &schema));
    assert!(rt; walks_levels(rt.alloc(), &mut shelf, &schema));
    Ok(())
}

#[test]
fn rows_are_loaded_and_appended(rt: HostRuntime) -> Result<(), Fail> {
    let schema = schema_of(rt.alloc())?;
    let mut shelf = QuietShelf::new(rt.alloc(), 8);
    assert_eq!(rt; grows_twins(rt.alloc(), &mut shelf, &schema), Ok(300));
    assert!(rt; appends_a_row(rt.alloc(), &mut shelf, &schema));
    Ok(())
}

#[test]
fn a_record_has_fifteen_levels(rt: HostRuntime) -> Result<(), Fail> {
    let schema = schema_with(rt.alloc(), DEEP, 15)?;
    let mut shelf = QuietShelf::new(rt.alloc(), 8);
    assert!(rt; builds_levels(rt.alloc(), &mut shelf, &schema));
    assert!(rt; cuts_levels(rt.alloc(), &mut shelf, &schema));
    assert!(rt; changes_lowest(rt.alloc(), &mut shelf, &schema));
    assert!(rt; moves_record(rt.alloc(), &mut shelf, &schema));
    Ok(())
}

#[test]
fn rows_lead_from_letter_to_letter(rt: HostRuntime) -> Result<(), Fail> {
    let schema = schema_with(rt.alloc(), LETTERS, 3)?;
    let mut shelf = QuietShelf::new(rt.alloc(), 8);
    assert!(rt; crosses_letters(rt.alloc(), &mut shelf, &schema));
    Ok(())
}
