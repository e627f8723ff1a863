// Changes of a list of rows in memory.
ghost use Rattle.std.specs.Prelude.{◌≡◌, ◌≤◌, ◌++◌, if◌then◌else◌, IfOk, OnOk, OnErr, IsTrue};
ghost use Rattle.hal_schema.specs.Forest.{is_forest};
ghost use Rattle.hal_schema.specs.Insertion.{inserted};
ghost use Rattle.hal_schema.specs.Row.{is_new_name, same_name};
ghost use Rattle.hal_schema.specs.Span.{replaced, with_content, without_span};
ghost use Rattle.position_state.specs.Keep.{changed};
ghost use Rattle.position_state.specs.Names.{names_are_up_to};

use crate::elements::is_same_name;
use crate::list_place::insertion_place;
use crate::list_view::count_below;
use crate::{Change, ListWalk};
use hal_base::{Bytes, Ilk, List, Memory};
use hal_schema::{Row, Schema};
use std::alloc::Global;

impl ListWalk<'_> {
    /// The rows, in hierarchic sequence.
    pub fn rows(&self) -> &[Row]
        ensures { result.now ≡ self.now.rows }
    {
        self.rows.as_slice()
    }

    /// A name that no row has.
    pub fn new_name(&self) -> Result<Ilk, Memory>
        ensures { IfOk result (λ name. IsTrue (is_new_name self.now.rows name)) }
    {
        if self.named == u32::MAX {
            return Err(Memory);
        }
        Ok(Ilk {
            addr: self.named + 1,
            part: 1,
            number: 1,
        })
    }

    /// Makes a change of the list, in which a new row gets this name. Want of memory leaves the list as it was.
    pub fn change(&mut self, change: &Change, name: Ilk) -> Result<(), Memory>
        requires forest { IsTrue (is_forest self.old.schema.now (changed self.old.schema.now change.now name self.old.rows)) }
        ensures changed { OnOk result (self.new.rows ≡ changed self.old.schema.now change.now name self.old.rows) }
        ensures unchanged { OnErr result (self.new.rows ≡ self.old.rows) }
        ensures schema { self.new.schema.now ≡ self.old.schema.now }
        ensures looks { self.new.looks ≡ self.old.looks }
    {
        match change {
            Change::Nothing | Change::Heal { .. } => Ok(()),
            Change::Insert {
                parent,
                code,
                content,
                ..
            } => {
                let content = content.copy()?;
                self.insert(Row {
                    name,
                    code: *code,
                    parent: *parent,
                    content,
                })
            }
            Change::Replace { name, content, .. } => self.replace(name, content),
            Change::Delete { name, .. } => self.delete(name),
        }
    }

    fn insert(&mut self, row: Row) -> Result<(), Memory>
        requires forest { IsTrue (is_forest self.old.schema.now (inserted self.old.schema.now self.old.rows row)) }
        ensures changed { OnOk result (self.new.rows ≡ inserted self.old.schema.now self.old.rows row) }
        ensures unchanged { OnErr result (self.new.rows ≡ self.old.rows) }
        ensures schema { self.new.schema.now ≡ self.old.schema.now }
        ensures looks { self.new.looks ≡ self.old.looks }
    {
        let place = insertion_place(self.schema, self.rows.as_slice(), &row);
        self.named = higher(self.named, row.name.addr);
        self.rows.insert(place, row)?;
        Ok(())
    }

    fn replace(&mut self, name: &Ilk, content: &Bytes) -> Result<(), Memory>
        requires forest { IsTrue (is_forest self.old.schema.now (replaced self.old.rows name.now content.now)) }
        ensures changed { OnOk result (self.new.rows ≡ replaced self.old.rows name.now content.now) }
        ensures unchanged { OnErr result (self.new.rows ≡ self.old.rows) }
        ensures schema { self.new.schema.now ≡ self.old.schema.now }
        ensures looks { self.new.looks ≡ self.old.looks }
    {
        let rows = replaced(self.alloc, self.rows.as_slice(), name, content)?;
        self.rows = rows;
        Ok(())
    }

    fn delete(&mut self, name: &Ilk) -> Result<(), Memory>
        requires forest { IsTrue (is_forest self.old.schema.now (without_span self.old.schema.now.types self.old.rows name.now)) }
        ensures changed { OnOk result (self.new.rows ≡ without_span self.old.schema.now.types self.old.rows name.now) }
        ensures unchanged { OnErr result (self.new.rows ≡ self.old.rows) }
        ensures schema { self.new.schema.now ≡ self.old.schema.now }
        ensures looks { self.new.looks ≡ self.old.looks }
    {
        let rows = without_span(self.alloc, self.schema, self.rows.as_slice(), name)?;
        self.rows = rows;
        Ok(())
    }
}

/// The highest address of a row's name.
pub(crate) fn highest_address(rows: &[Row]) -> u32
    ensures { IsTrue (names_are_up_to result rows.now) }
{
    let mut highest = 0;
    for row in rows {
        highest = higher(highest, row.name.addr);
    }
    highest
}

/// The higher of two addresses.
fn higher(a: u32, b: u32) -> u32
    ensures first { a ≤ result }
    ensures second { b ≤ result }
{
    a.max(b)
}

/// The rows, with this content in the row of a name.
fn replaced(alloc: Global, rows: &[Row], name: &Ilk, content: &Bytes) -> Result<List<Row>, Memory>
    ensures { IfOk result (λ list. list ≡ replaced rows.now name.now content.now) }
{
    let mut list = List::new(alloc);
    for row in rows {
        list.push(replaced_row(row, name, content)?)?;
    }
    Ok(list)
}

fn replaced_row(row: &Row, name: &Ilk, content: &Bytes) -> Result<Row, Memory>
    ensures { IfOk result (λ new. new ≡ (if same_name row.now.name name.now then with_content row.now content.now else row.now)) }
{
    if is_same_name(&row.name, name) {
        with_content(row, content)
    } else {
        with_content(row, &row.content)
    }
}

fn with_content(row: &Row, content: &Bytes) -> Result<Row, Memory>
    ensures { IfOk result (λ new. new ≡ with_content row.now content.now) }
{
    Ok(Row {
        name: row.name,
        code: row.code,
        parent: row.parent,
        content: content.copy()?,
    })
}

/// The rows without that of a name and those below it.
fn without_span(
    alloc: Global,
    schema: &Schema,
    rows: &[Row],
    name: &Ilk,
) -> Result<List<Row>, Memory>
    ensures { IfOk result (λ list. list ≡ without_span schema.now.types rows.now name.now) }
{
    let mut list = List::new(alloc);
    for (place, row) in rows.iter().enumerate() {
        if is_same_name(&row.name, name) {
            let below = count_below(schema, row, &rows[place + 1..]);
            append_rows(&mut list, &rows[place + 1 + below..])?;
            return Ok(list);
        }
        list.push(with_content(row, &row.content)?)?;
    }
    Ok(list)
}

/// Adds copies of rows at the end.
fn append_rows(list: &mut List<Row>, rows: &[Row]) -> Result<(), Memory>
    ensures { OnOk result (list.new ≡ list.old ++ rows.now) }
{
    for row in rows {
        list.push(with_content(row, &row.content)?)?;
    }
    Ok(())
}
