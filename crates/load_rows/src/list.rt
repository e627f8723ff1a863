// A taker over a list in memory, which tells its rows.
ghost use Rattle.std.specs.Prelude.{◌≡◌, [], true, IfOk, IsErrOf, IsTrue, refl, ⊤};
ghost use Rattle.hal_loader.specs.Placing.{coming, with_loaded, with_name};
ghost use Rattle.hal_schema.specs.Row.{is_new_name};
ghost use Rattle.load_rows.specs.Listed.{ListTakes, list_seen, names_are_up_to};

use crate::entries::enter_freely;
use crate::need::load_need;
use crate::place::load_place;
use crate::roots::has_root;
use hal_base::{Bytes, Ilk, List, Live, Memory};
use hal_loader::{RowTaker, TakeFault};
use hal_schema::{Row, Schema};
use std::alloc::Global;

/// Load rows in a list, with a number of free blocks, of which it takes none. It asks all rows anew for each row of a type
/// that an index has entries of, and looks for the place of a row from the end of the list.
#[derive(Drop)]
pub struct ListTaker {
    alloc: Global,
    schema: Schema,
    rows: List<Row>,
    free: u32,
    named: u32,
    ghost named_below: { IsTrue (names_are_up_to named rows) },
}

impl ListTaker {
    pub fn new(alloc: Global, schema: Schema, free: u32) -> ListTaker
        ensures schema { result.schema ≡ schema }
        ensures blocks { result.free ≡ free }
        ensures rows { result.rows ≡ [] }
    {
        ListTaker {
            alloc,
            schema,
            rows: List::new(alloc),
            free,
            named: 0,
        }
    }

    /// The rows, in hierarchic sequence.
    pub fn rows(&self) -> &[Row]
        ensures { result.now ≡ self.now.rows }
    {
        self.rows.as_slice()
    }
}

/// What a row is named that has no name yet.
const NO_NAME: Ilk = Ilk {
    addr: 0,
    part: 0,
    number: 0,
};

impl ListTaker {
    /// What becomes of a row.
    fn taken(
        &mut self,
        parent: Option<Ilk>,
        code: u8,
        content: &Bytes,
    ) -> Result<Result<Ilk, TakeFault>, Memory>
        ensures told { IfOk result (λ answer. ListTakes self.old.schema (coming parent code content.now) self.old.rows self.old.free self.new.rows self.new.free answer) }
        ensures never { IfOk result (λ answer. IsErrOf answer TakeFault.Failed → ⊥) }
        ensures schema { self.new.schema ≡ self.old.schema }
    {
        let row = Row {
            name: NO_NAME,
            code,
            parent,
            content: content.copy()?,
        };
        if !enter_freely(self.alloc, &self.schema, self.rows.as_slice(), &row)? {
            return Ok(Err(TakeFault::Twice));
        }
        let need = load_need(self.alloc, &self.schema, self.rows.as_slice(), &row)?;
        if self.free < need {
            return Ok(Err(TakeFault::NoRoom { need }));
        }
        let name = self.put(row)?;
        Ok(Ok(name))
    }

    /// Puts a row at its place, under a name that no row has.
    fn put(&mut self, mut row: Row) -> Result<Ilk, Memory>
        ensures new_name { IfOk result (λ name. is_new_name self.old.rows name ≡ true) }
        ensures rows { IfOk result (λ name. self.new.rows ≡ with_loaded self.old.schema self.old.rows (with_name row name)) }
        ensures schema { self.new.schema ≡ self.old.schema }
        ensures blocks { self.new.free ≡ self.old.free }
    {
        if self.named == u32::MAX {
            return Err(Memory);
        }
        let named = self.named + 1;
        let name = Ilk {
            addr: named,
            part: 1,
            number: 1,
        };
        row.name = name;
        let place = load_place(&self.schema, self.rows.as_slice(), &row);
        self.named = named;
        self.rows.insert(place, row)?;
        Ok(name)
    }
}

impl Live for ListTaker {
    ghost live = { λ _. true };

    fn is_live(&self) -> bool {
        true
    }
}

impl RowTaker for ListTaker {
    ghost schema = { λ t. t.schema };

    ghost seen = { λ t. list_seen t.rows t.free };

    ghost steady = { λ _ _. ⊤ };

    ghost alive = { λ t. refl };

    ghost steady_none = { λ t. tt };

    ghost steady_then = { λ a b c first second. tt };

    fn is_empty(&self) -> bool {
        self.rows.is_empty()
    }

    fn has_root(&mut self, key: &[u8]) -> Result<bool, TakeFault> {
        Ok(has_root(&self.schema, self.rows.as_slice(), key))
    }

    fn take(&mut self, parent: Option<Ilk>, code: u8, content: &Bytes) -> Result<Ilk, TakeFault> {
        match self.taken(parent, code, content) {
            Ok(answer) => answer,
            Err(Memory) => Err(TakeFault::Memory),
        }
    }
}
