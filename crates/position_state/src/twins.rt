// What rows are to one another: parents, children and twins.
ghost use Rattle.std.specs.Prelude.{◌≡◌, ◌<◌, ◌≤◌, length};
ghost use Rattle.hal_schema.specs.Forest.{twin_cmp};
ghost use Rattle.hal_schema.specs.Insertion.{goes_before, is_first, is_lower_child, is_twin_before, stands_before};
ghost use Rattle.hal_schema.specs.Row.{are_twins, is_parent, same_parent};

use crate::elements::is_same_name;
use hal_base::Ilk;
use hal_schema::{Row, Schema, root_cmp, row_key, type_of};
use std::cmp::Ordering;

/// Whether a row must stand before a new one: its parent, a child of that parent of lower code, or a twin.
pub(crate) fn stands_before(schema: &Schema, row: &Row, new: &Row) -> bool
    ensures { result ≡ stands_before schema.now new.now row.now }
{
    is_parent(row, new) || is_lower_child(row, new) || is_twin_before(schema, row, new)
}

fn is_same_parent(a: &Option<Ilk>, b: &Option<Ilk>) -> bool
    ensures { result ≡ same_parent a.now b.now }
{
    match (a, b) {
        (None, None) => true,
        (Some(a), Some(b)) => is_same_name(a, b),
        _ => false,
    }
}

fn is_parent(above: &Row, row: &Row) -> bool
    ensures { result ≡ is_parent above.now row.now }
{
    match &row.parent {
        None => false,
        Some(parent) => is_same_name(&above.name, parent),
    }
}

fn are_twins(a: &Row, b: &Row) -> bool
    ensures { result ≡ are_twins a.now b.now }
{
    a.code == b.code && is_same_parent(&a.parent, &b.parent)
}

fn is_lower_child(row: &Row, new: &Row) -> bool
    ensures { result ≡ is_lower_child new.now row.now }
{
    is_same_parent(&row.parent, &new.parent) && row.code < new.code
}

/// Whether a row is a twin that must stand before a new one.
fn is_twin_before(schema: &Schema, row: &Row, new: &Row) -> bool
    ensures { result ≡ is_twin_before schema.now new.now row.now }
{
    are_twins(row, new) && goes_before(is_first(schema, new.code), twin_cmp(schema, row, new))
}

/// Whether the type of a code has RULES=(,FIRST).
fn is_first(schema: &Schema, code: u8) -> bool
    ensures { result ≡ is_first schema.now code }
{
    match type_of(schema, code) {
        None => false,
        Some(seg_type) => seg_type.first,
    }
}

/// Whether a twin of this comparison with a new row stands before it: one of equal key under LAST.
fn goes_before(first: bool, order: Ordering) -> bool
    ensures { result ≡ goes_before first order }
{
    match order {
        Ordering::Less => true,
        Ordering::Equal => !first,
        Ordering::Greater => false,
    }
}

/// How two twins compare: roots in the order of roots, others by their sequence fields.
fn twin_cmp(schema: &Schema, a: &Row, b: &Row) -> Ordering
    ensures { result ≡ twin_cmp schema.now a.now b.now }
{
    if a.code == 1 {
        return root_cmp(schema, row_key(schema, a), row_key(schema, b));
    }
    row_key(schema, a).cmp(row_key(schema, b))
}
