ghost use Rattle.std.specs.Prelude.{◌≡◌, ◌≤◌, [], ◌∷◌, ◌++◌, OnOk, OnErr, IfErr, IfOk, length};
ghost use Rattle.std.specs.List.{prefix_len};
ghost use Rattle.hal_schema.specs.Places.{at_or_before, earlier, is_before, later, least, partition, sooner, statement, when};
ghost use Rattle.hal_schema.specs.Raw.{in_order};
ghost use Rattle.hal_schema.specs.Faults.{IsFaultAt};

use hal_base::{List, Memory};
use std::alloc::Global;

/// Where a rule is broken: on a line of the DBD text, or at a partition's place in the partition file, which
/// is 0 for `blocks`.
#[derive(Clone, Copy, Debug, PartialEq, Eq)]
pub struct Place {
    pub part: bool,
    pub line: u32,
}

/// Why a definition isn't one.
#[derive(Clone, Copy, Debug, PartialEq, Eq)]
pub enum SchemaFault {
    /// The least rule that is broken, at the first item that breaks it: a partition's place where `part` is
    /// true, else a line.
    Rule { rule: u8, part: bool, line: u32 },
    Memory,
}

impl From<Memory> for SchemaFault {
    ghost use Rattle.std.specs.Prelude.{◌≡◌};
    ghost use Rattle.hal_schema.specs.declared.fault.SchemaFault.TheVariants.{Memory};

    ghost from_gives = { λ _ fault. fault ≡ Memory };

    fn from(_: Memory) -> SchemaFault {
        SchemaFault::Memory
    }
}

/// Where a statement stands.
pub(crate) fn statement(line: u32) -> Place
    ensures { result ≡ statement line }
{
    Place { part: false, line }
}

/// Where a partition stands, or `blocks`, which comes before them all.
pub(crate) fn partition(place: u32) -> Place
    ensures { result ≡ partition place }
{
    Place {
        part: true,
        line: place,
    }
}

pub(crate) fn is_at_or_before(a: Place, b: Place) -> bool
    ensures { result ≡ at_or_before a b }
{
    if a.part {
        b.part && a.line <= b.line
    } else {
        b.part || a.line <= b.line
    }
}

pub(crate) fn later(a: Place, b: Place) -> Place
    ensures { result ≡ later a b }
{
    if is_at_or_before(a, b) { b } else { a }
}

/// The places in their order.
pub(crate) fn in_order(alloc: Global, places: &[Place]) -> Result<List<Place>, Memory>
    ensures { IfOk result (λ list. list ≡ in_order is_before places.now) }
{
    let mut list = List::new(alloc);
    let mut left = places.len();
    while left > 0 {
        left -= 1;
        let place = &places[left];
        list.insert(places_before(list.as_slice(), *place), *place)?;
    }
    Ok(list)
}

fn places_before(places: &[Place], place: Place) -> usize
    ensures place { result ≡ prefix_len (λ p. is_before p place) places.now }
    ensures within { result ≤ length places.now }
{
    for (i, p) in places.iter().enumerate() {
        if is_at_or_before(place, *p) {
            return i;
        }
    }
    places.len()
}

/// Takes a place down where a rule is broken there.
pub(crate) fn note(places: &mut List<Place>, broken: bool, place: Place) -> Result<(), Memory>
    ensures { OnOk result (places.new ≡ places.old ++ when broken place) }
{
    if broken {
        places.push(place)?;
    }
    Ok(())
}

fn least(places: &[Place]) -> Option<Place>
    ensures { result ≡ least places.now }
{
    let mut first = None;
    for place in places {
        first = sooner(first, *place);
    }
    first
}

fn sooner(first: Option<Place>, place: Place) -> Option<Place>
    ensures { result ≡ sooner first place }
{
    match first {
        None => Some(place),
        Some(before) => Some(if is_at_or_before(before, place) {
            before
        } else {
            place
        }),
    }
}

/// Refuses a rule that is broken somewhere.
pub(crate) fn judge(rule: u8, places: &List<Place>) -> Result<(), SchemaFault>
    ensures kept { OnOk result (places.now ≡ []) }
    ensures broken { IfErr result (λ fault. IsFaultAt rule places.now fault) }
{
    match least(places.as_slice()) {
        None => Ok(()),
        Some(place) => Err(SchemaFault::Rule {
            rule,
            part: place.part,
            line: place.line,
        }),
    }
}
