// What a row's type says of it: its parents and twins.
ghost use Rattle.std.specs.Prelude.{◌≡◌, ◌+◌, ◌-◌, ◌<◌, length};
ghost use Rattle.std.specs.Option.{option_copied};
ghost use Rattle.hal_schema.specs.SegType.{level_of, portion, type_of};
ghost use Rattle.hal_schema.specs.Row.{are_twins, is_parent, row_key, same_name, same_parent};

use hal_base::Ilk;
use hal_schema::{Row, Schema, SegType};

fn is_same_name(a: &Ilk, b: &Ilk) -> bool
    ensures { result ≡ same_name a.now b.now }
{
    a.addr == b.addr && a.part == b.part && a.number == b.number
}

pub(crate) fn is_same_parent(a: &Option<Ilk>, b: &Option<Ilk>) -> bool
    ensures { result ≡ same_parent a.now b.now }
{
    match (a, b) {
        (None, None) => true,
        (Some(a), Some(b)) => is_same_name(a, b),
        _ => false,
    }
}

pub(crate) fn is_parent(above: &Row, row: &Row) -> bool
    ensures { result ≡ is_parent above.now row.now }
{
    match &row.parent {
        None => false,
        Some(parent) => is_same_name(&above.name, parent),
    }
}

pub(crate) fn are_twins(a: &Row, b: &Row) -> bool
    ensures { result ≡ are_twins a.now b.now }
{
    a.code == b.code && is_same_parent(&a.parent, &b.parent)
}
