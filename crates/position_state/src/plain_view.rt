// Looks at the plain view of a list of rows, without a copy of it.
ghost use Rattle.std.specs.Prelude.{◌≡◌, ◌≤◌, map, length, take, IfOk, IsTrue, None};
ghost use Rattle.std.specs.List.{last_or, slice_get};
ghost use Rattle.hal_schema.specs.Forest.{is_forest};
ghost use Rattle.position_state.specs.View.{plain_element, view_of};
ghost use Rattle.position_state.specs.Places.{path_behind};
ghost use Rattle.position_state.specs.Looks.{above, first_behind, found_at, last_before, past, root_of_key};

use crate::path::{append_keys, root_key};
use crate::row_places::{
    first_up_to, place_of, place_of_root, rows_before, rows_through, through_above,
};
use crate::{Anchor, Spot};
use hal_base::{Bytes, Memory};
use hal_schema::{Row, Schema, level_of};
use std::alloc::Global;

/// The rows of a forest, seen in hierarchic sequence. A look goes over the rows, and makes the one element that it shows.
#[derive(Drop)]
pub(crate) struct PlainView<'a> {
    pub(crate) alloc: Global,
    pub(crate) schema: &'a Schema,
    pub(crate) rows: &'a [Row],
    ghost forest: { IsTrue (is_forest schema.now rows.now) },
}

impl<'a> PlainView<'a> {
    pub(crate) fn new(alloc: Global, schema: &'a Schema, rows: &'a [Row]) -> PlainView<'a>
        requires { IsTrue (is_forest schema.now rows.now) }
        ensures schema { result.schema.now ≡ schema.now }
        ensures rows { result.rows.now ≡ rows.now }
    {
        PlainView {
            alloc,
            schema,
            rows,
        }
    }

    pub(crate) fn after(&self, at: &Anchor) -> Result<Option<Spot>, Memory>
        ensures { IfOk result (λ spot. spot ≡ first_behind at.now (view_of self.now.schema.now None self.now.rows.now)) }
    {
        self.spot(rows_through(self.rows, at))
    }

    pub(crate) fn before(&self, at: &Anchor) -> Result<Option<Spot>, Memory>
        ensures { IfOk result (λ spot. spot ≡ last_before at.now (view_of self.now.schema.now None self.now.rows.now)) }
    {
        self.last_of(rows_before(self.rows, at))
    }

    pub(crate) fn past(&self, spot: &Spot) -> Result<Option<Spot>, Memory>
        ensures { IfOk result (λ found. found ≡ past spot.now (view_of self.now.schema.now None self.now.rows.now)) }
    {
        let from = rows_through(self.rows, &spot.at);
        self.spot(from + first_up_to(self.schema, &self.rows[from..], spot.level))
    }

    pub(crate) fn here(&self, at: &Anchor) -> Result<Option<Spot>, Memory>
        ensures { IfOk result (λ spot. spot ≡ found_at at.now (view_of self.now.schema.now None self.now.rows.now)) }
    {
        self.spot(place_of(self.rows, at))
    }

    pub(crate) fn at_root(&self, key: &[u8]) -> Result<Option<Spot>, Memory>
        ensures { IfOk result (λ spot. spot ≡ root_of_key key.now (view_of self.now.schema.now None self.now.rows.now)) }
    {
        self.spot(place_of_root(self.schema, self.rows, key))
    }

    pub(crate) fn above(&self, spot: &Spot) -> Result<Option<Spot>, Memory>
        ensures { IfOk result (λ found. found ≡ above spot.now (view_of self.now.schema.now None self.now.rows.now)) }
    {
        let before = rows_before(self.rows, &spot.at);
        self.last_of(through_above(self.schema, &self.rows[..before], spot.level))
    }

    /// The element of the last of so many rows from the first on.
    fn last_of(&self, count: usize) -> Result<Option<Spot>, Memory>
        requires { count ≤ length self.now.rows.now }
        ensures { IfOk result (λ spot. spot ≡ last_or None (take count (view_of self.now.schema.now None self.now.rows.now))) }
    {
        if count == 0 {
            return Ok(None);
        }
        self.spot(count - 1)
    }

    /// The element of the row at a place.
    fn spot(&self, place: usize) -> Result<Option<Spot>, Memory>
        ensures { IfOk result (λ spot. spot ≡ slice_get (view_of self.now.schema.now None self.now.rows.now) place) }
    {
        if place >= self.rows.len() {
            return Ok(None);
        }
        let row = &self.rows[place];
        let path = self.path_to(place, row)?;
        Ok(Some(plain_element(self.alloc, self.schema, &path, row)?))
    }

    /// The path to the row at a place, made from its end.
    fn path_to(&self, place: usize, row: &'a Row) -> Result<Vec<&'a Row>, Memory>
        requires within { place ≤ length self.now.rows.now }
        ensures { IfOk result (λ path. map (λ r. r.now) path.items ≡ path_behind self.now.schema.now.types self.now.rows.now place row.now) }
    {
        let mut path = Vec::new(self.alloc);
        path.push(row)?;
        let mut left = through_above(
            self.schema,
            &self.rows[..place],
            level_of(self.schema, row.code),
        );
        'path: while left > 0 {
            let above = &self.rows[left - 1];
            path.insert(0, above)?;
            left = through_above(
                self.schema,
                &self.rows[..left - 1],
                level_of(self.schema, above.code),
            );
        }
        Ok(path)
    }
}

fn plain_element(alloc: Global, schema: &Schema, path: &[&Row], row: &Row) -> Result<Spot, Memory>
    ensures { IfOk result (λ spot. spot ≡ plain_element schema.now.types (map (λ r. r.now) path.entry.now) row.now) }
{
    let mut key = Bytes::new(alloc);
    append_keys(&mut key, schema, path)?;
    Ok(Spot {
        at: Anchor::At {
            name: row.name,
            root: root_key(alloc, schema, path)?,
            entry: None,
        },
        code: row.code,
        level: level_of(schema, row.code),
        key,
        content: row.content.copy()?,
    })
}
