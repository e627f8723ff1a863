// Looks at a list of rows in memory.
ghost use Rattle.std.specs.Prelude.{◌≡◌, ◌+◌, ◌-◌, ◌^◌, min, true, IfOk, IsTrue, Some};
ghost use Rattle.std.proofs.Common.{refl};
ghost use Rattle.hal_schema.specs.Forest.{is_forest};
ghost use Rattle.position_state.specs.Names.{names_are_up_to};
ghost use Rattle.position_state.specs.View.{view_of};

use crate::elements::{above, before, behind, copied, first_of_key, found_at, last, past};
use crate::list_change::highest_address;
use crate::list_entries::taken_by;
use crate::list_view::view_of;
use crate::plain_view::PlainView;
use crate::{Anchor, Spot, Walk, WalkFault};
use hal_base::{Ilk, List, Live, Memory};
use hal_schema::{Row, Schema};
use std::alloc::Global;

/// A list of rows in memory, seen as a database that never fails and has 65,536 free blocks. A look at the plain
/// view goes over the rows; one by an index makes its whole view anew.
#[derive(Drop)]
pub struct ListWalk<'a> {
    pub(crate) schema: &'a Schema,
    pub(crate) rows: List<Row>,
    pub(crate) looks: u64,
    pub(crate) alloc: Global,
    pub(crate) named: u32,
    ghost kept: { IsTrue (is_forest schema.now rows) },
    ghost named_below: { IsTrue (names_are_up_to named rows) },
}

impl<'a> ListWalk<'a> {
    pub fn new(alloc: Global, schema: &'a Schema, rows: List<Row>) -> ListWalk<'a>
        requires { IsTrue (is_forest schema.now rows) }
        ensures schema { result.schema.now ≡ schema.now }
        ensures rows { result.rows ≡ rows }
        ensures looks { result.looks ≡ 0 }
    {
        let named = highest_address(rows.as_slice());
        ListWalk {
            schema,
            rows,
            looks: 0,
            alloc,
            named,
        }
    }

    /// How many looks there were.
    pub fn looks(&self) -> u64
        ensures { result ≡ self.now.looks }
    {
        self.looks
    }

    /// Counts a look.
    fn count(&mut self)
        ensures schema { self.new.schema.now ≡ self.old.schema.now }
        ensures rows { self.new.rows ≡ self.old.rows }
        ensures looks { self.new.looks ≡ min (self.old.looks + 1) (2 ^ 64 - 1) }
    {
        self.looks = self.looks.saturating_add(1);
    }

    fn plain(&self) -> PlainView<'_>
        ensures schema { result.schema.now ≡ self.now.schema.now }
        ensures rows { result.rows.now ≡ self.now.rows }
    {
        PlainView::new(self.alloc, self.schema, self.rows.as_slice())
    }

    fn by_index(&self, index: u8) -> Result<List<Spot>, Memory>
        ensures { IfOk result (λ view. view ≡ view_of self.now.schema.now (Some index) self.now.rows) }
    {
        view_of(self.alloc, self.schema, index, self.rows.as_slice())
    }
}

impl Live for ListWalk<'_> {
    ghost live = { λ _. true };

    fn is_live(&self) -> bool {
        true
    }
}

impl Walk for ListWalk<'_> {
    ghost seen = { λ w. record {
      schema = w.schema.now;
      forest = Some w.rows;
      free = 65536;
      faults = 0;
      looks = w.looks;
      live = true;
    } };

    ghost alive = { λ w. refl };

    ghost keeps_forest = { λ w. w.kept };

    fn after(&mut self, index: Option<u8>, at: &Anchor) -> Result<Option<Spot>, WalkFault> {
        self.count();
        match index {
            None => Ok(self.plain().after(at)?),
            Some(index) => {
                let view = self.by_index(index)?;
                Ok(copied(behind(view.as_slice(), at).first())?)
            }
        }
    }

    fn before(&mut self, index: Option<u8>, at: &Anchor) -> Result<Option<Spot>, WalkFault> {
        self.count();
        match index {
            None => Ok(self.plain().before(at)?),
            Some(index) => {
                let view = self.by_index(index)?;
                Ok(copied(last(before(view.as_slice(), at)))?)
            }
        }
    }

    fn past(&mut self, index: Option<u8>, spot: &Spot) -> Result<Option<Spot>, WalkFault> {
        self.count();
        match index {
            None => Ok(self.plain().past(spot)?),
            Some(index) => {
                let view = self.by_index(index)?;
                Ok(copied(past(view.as_slice(), spot))?)
            }
        }
    }

    fn here(&mut self, index: Option<u8>, at: &Anchor) -> Result<Option<Spot>, WalkFault> {
        self.count();
        match index {
            None => Ok(self.plain().here(at)?),
            Some(index) => {
                let view = self.by_index(index)?;
                Ok(copied(found_at(view.as_slice(), at))?)
            }
        }
    }

    fn at_root(&mut self, key: &[u8]) -> Result<Option<Spot>, WalkFault> {
        self.count();
        Ok(self.plain().at_root(key)?)
    }

    fn above(&mut self, index: Option<u8>, spot: &Spot) -> Result<Option<Spot>, WalkFault> {
        self.count();
        match index {
            None => Ok(self.plain().above(spot)?),
            Some(index) => {
                let view = self.by_index(index)?;
                Ok(copied(above(view.as_slice(), spot))?)
            }
        }
    }

    fn at_entry(&mut self, index: u8, search: &[u8]) -> Result<Option<Spot>, WalkFault> {
        self.count();
        let view = self.by_index(index)?;
        Ok(copied(first_of_key(view.as_slice(), search))?)
    }

    fn taken(&mut self, index: u8, key: &[u8]) -> Result<Option<Ilk>, WalkFault> {
        self.count();
        Ok(taken_by(self.alloc, self.schema, index, self.rows.as_slice(), key)?)
    }

    fn free(&self) -> u32 {
        65_536
    }
}
