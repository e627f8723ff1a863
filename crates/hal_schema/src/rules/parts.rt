ghost use Rattle.std.specs.Prelude.{◌≡◌, ◌<◌, ◌≤◌, ◌++◌, ◌==◌, not, OnOk, flat_map, length};
ghost use Rattle.hal_schema.specs.Lawful.{blocks_are_kept, factors_fit, number_fits};
ghost use Rattle.hal_schema.specs.Places.{later, partition, twice, when};
ghost use Rattle.hal_schema.specs.Raw.{anch_of, anchors_of, part_of, rbn_of, rm_of};
ghost use Rattle.hal_schema.specs.Rules.{factors_broken, highs_broken, high_is_long, numbers_broken, same_high};

use crate::fault::{later, note, partition};
use crate::rules::indexes::key_bytes;
use crate::{Place, RawDbd, RawPart, RawParts, SegType};
use hal_base::{List, Memory, Name8};

/// A high key hasn't the root key's length, or two are equal.
pub(crate) fn highs_broken(
    places: &mut List<Place>,
    types: &[SegType],
    parts: &[RawPart],
) -> Result<(), Memory>
    requires { 0 < length types.now }
    ensures { OnOk result (places.new ≡ places.old ++ highs_broken types.now parts.now) }
{
    highs_not_long(places, key_bytes(types, 1), parts)?;
    highs_twice(places, parts)
}

fn highs_not_long(places: &mut List<Place>, bytes: u16, parts: &[RawPart]) -> Result<(), Memory>
    ensures { OnOk result (places.new ≡ places.old ++ flat_map (λ p. when (not (high_is_long bytes p)) (partition p.place)) parts.now) }
{
    for p in parts {
        note(
            places,
            p.high.len() != usize::from(bytes),
            partition(p.place),
        )?;
    }
    Ok(())
}

fn highs_twice(places: &mut List<Place>, parts: &[RawPart]) -> Result<(), Memory>
    ensures { OnOk result (places.new ≡ places.old ++ twice same_high (λ p. partition p.place) parts.now) }
{
    for i in 0..parts.len() {
        highs_like(places, &parts[i], &parts[i + 1..])?;
    }
    Ok(())
}

fn highs_like(places: &mut List<Place>, p: &RawPart, rest: &[RawPart]) -> Result<(), Memory>
    ensures { OnOk result (places.new ≡ places.old ++ flat_map (λ q. when (same_high p.now q) (later (partition p.now.place) (partition q.place))) rest.now) }
{
    for q in rest {
        note(
            places,
            p.high == q.high,
            later(partition(p.place), partition(q.place)),
        )?;
    }
    Ok(())
}

/// PHDAM anchors aren't 1 to 1,000,000, fbff isn't 0 or 2 to 100, or fspf isn't 0 to 99.
pub(crate) fn factors_broken(
    places: &mut List<Place>,
    dbd: &RawDbd,
    parts: &[RawPart],
) -> Result<(), Memory>
    ensures { OnOk result (places.new ≡ places.old ++ factors_broken dbd.now parts.now) }
{
    for p in parts {
        note(places, !factors_fit(dbd, p), partition(p.place))?;
    }
    Ok(())
}

fn factors_fit(dbd: &RawDbd, p: &RawPart) -> bool
    ensures { result ≡ factors_fit dbd.now.phdam (part_of dbd.now p.now) }
{
    let anchors = anchors_of(dbd, p);
    (!dbd.phdam || (1 <= anchors && anchors <= 1_000_000))
        && (p.fbff == 0 || (2 <= p.fbff && p.fbff <= 100))
        && p.fspf <= 99
}

/// The root anchors of a partition: those that it names, else those of the schema.
pub(crate) fn anchors_of(dbd: &RawDbd, p: &RawPart) -> u64
    ensures { result ≡ anchors_of dbd.now p.now }
{
    match p.anchors {
        Some(anchors) => u64::from(anchors),
        None => u64::from(anch_of(dbd)) * u64::from(rbn_of(dbd)),
    }
}

/// The RMNAME, which a PHIDAM schema hasn't.
pub(crate) fn rm_of(dbd: &RawDbd) -> Option<Name8>
    ensures { result ≡ rm_of dbd.now }
{
    if dbd.phdam { dbd.rm } else { None }
}

/// The anchor points of RMNAME, 1 where there is none.
pub(crate) fn anch_of(dbd: &RawDbd) -> u32
    ensures { result ≡ anch_of dbd.now }
{
    if rm_of(dbd).is_some() { dbd.anch } else { 1 }
}

/// The blocks of RMNAME, 1 where there is none.
pub(crate) fn rbn_of(dbd: &RawDbd) -> u32
    ensures { result ≡ rbn_of dbd.now }
{
    if rm_of(dbd).is_some() { dbd.rbn } else { 1 }
}

/// Blocks aren't 1 to 65,536, or a partition number isn't 1 to 32,767.
pub(crate) fn numbers_broken(places: &mut List<Place>, parts: &RawParts) -> Result<(), Memory>
    ensures { OnOk result (places.new ≡ places.old ++ numbers_broken parts.now) }
{
    note(
        places,
        parts.blocks < 1 || parts.blocks > 65_536,
        partition(0),
    )?;
    numbers_in(places, parts.parts.as_slice())
}

fn numbers_in(places: &mut List<Place>, parts: &[RawPart]) -> Result<(), Memory>
    ensures { OnOk result (places.new ≡ places.old ++ flat_map (λ p. when (not (number_fits p.number)) (partition p.place)) parts.now) }
{
    for p in parts {
        note(
            places,
            p.number < 1 || p.number > 32_767,
            partition(p.place),
        )?;
    }
    Ok(())
}
