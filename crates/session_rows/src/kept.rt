// What deletions, replacements and insertions leave of sessions in each kind of place.
use crate::{deletion, insertion_of_g, left, place, replacement, standing};
use position_state::Anchor;
use std::test::Fail;

/// The address of the row at a place; 0 before the first.
fn address(at: &Anchor) -> u32 {
    match at {
        Anchor::Front => 0,
        Anchor::At { name, .. } => name.addr,
    }
}

fn address_of(at: &Option<Anchor>) -> Option<u32> {
    at.as_ref().map(address)
}

#[test]
fn a_row_goes_with_its_parent(rt: HostRuntime) -> Result<(), Fail> {
    let alloc = rt.alloc();
    let at = place(alloc, 48, b"001")?;
    let held = Some(place(alloc, 48, b"001")?);
    let parent = Some(place(alloc, 32, b"001")?);
    let session = standing(alloc, at, held, parent);
    let change = deletion(alloc, 32, b"001")?;
    let (kept, looks) = left(alloc, &session, &change)?;
    assert_eq!(rt; address(&kept.anchor), 16);
    assert_eq!(rt; address_of(&kept.held), None);
    assert_eq!(rt; address_of(&kept.parent), None);
    assert_eq!(rt; looks, 5);
    Ok(())
}

#[test]
fn a_twin_behind_stays(rt: HostRuntime) -> Result<(), Fail> {
    let alloc = rt.alloc();
    let at = place(alloc, 64, b"001")?;
    let held = Some(place(alloc, 64, b"001")?);
    let parent = Some(place(alloc, 16, b"001")?);
    let session = standing(alloc, at, held, parent);
    let change = deletion(alloc, 32, b"001")?;
    let (kept, looks) = left(alloc, &session, &change)?;
    assert_eq!(rt; address(&kept.anchor), 64);
    assert_eq!(rt; address_of(&kept.held), Some(64));
    assert_eq!(rt; address_of(&kept.parent), Some(16));
    assert_eq!(rt; looks, 5);
    Ok(())
}

#[test]
fn a_record_goes_whole(rt: HostRuntime) -> Result<(), Fail> {
    let alloc = rt.alloc();
    let at = place(alloc, 80, b"001")?;
    let held = Some(place(alloc, 80, b"001")?);
    let parent = Some(place(alloc, 64, b"001")?);
    let session = standing(alloc, at, held, parent);
    let change = deletion(alloc, 16, b"001")?;
    let (kept, _) = left(alloc, &session, &change)?;
    assert_eq!(rt; address(&kept.anchor), 0);
    assert_eq!(rt; address_of(&kept.held), None);
    assert_eq!(rt; address_of(&kept.parent), None);
    Ok(())
}

#[test]
fn another_record_costs_no_look(rt: HostRuntime) -> Result<(), Fail> {
    let alloc = rt.alloc();
    let at = place(alloc, 96, b"002")?;
    let held = Some(place(alloc, 96, b"002")?);
    let parent = Some(place(alloc, 96, b"002")?);
    let session = standing(alloc, at, held, parent);
    let change = deletion(alloc, 16, b"001")?;
    let (kept, looks) = left(alloc, &session, &change)?;
    assert_eq!(rt; address(&kept.anchor), 96);
    assert_eq!(rt; address_of(&kept.held), Some(96));
    assert_eq!(rt; address_of(&kept.parent), Some(96));
    assert_eq!(rt; looks, 0);
    Ok(())
}

#[test]
fn a_position_goes_to_the_element_before(rt: HostRuntime) -> Result<(), Fail> {
    let alloc = rt.alloc();
    let at = place(alloc, 96, b"002")?;
    let session = standing(alloc, at, None, None);
    let change = deletion(alloc, 96, b"002")?;
    let (kept, _) = left(alloc, &session, &change)?;
    assert_eq!(rt; address(&kept.anchor), 80);
    Ok(())
}

#[test]
fn the_parent_above_stays(rt: HostRuntime) -> Result<(), Fail> {
    let alloc = rt.alloc();
    let at = place(alloc, 48, b"001")?;
    let held = Some(place(alloc, 48, b"001")?);
    let parent = Some(place(alloc, 32, b"001")?);
    let session = standing(alloc, at, held, parent);
    let change = deletion(alloc, 48, b"001")?;
    let (kept, _) = left(alloc, &session, &change)?;
    assert_eq!(rt; address(&kept.anchor), 32);
    assert_eq!(rt; address_of(&kept.held), None);
    assert_eq!(rt; address_of(&kept.parent), Some(32));
    Ok(())
}

#[test]
fn the_front_stays(rt: HostRuntime) -> Result<(), Fail> {
    let alloc = rt.alloc();
    let session = standing(alloc, Anchor::Front, None, None);
    let change = deletion(alloc, 16, b"001")?;
    let (kept, looks) = left(alloc, &session, &change)?;
    assert_eq!(rt; address(&kept.anchor), 0);
    assert_eq!(rt; looks, 0);
    Ok(())
}

#[test]
fn a_replaced_row_is_held_no_more(rt: HostRuntime) -> Result<(), Fail> {
    let alloc = rt.alloc();
    let at = place(alloc, 32, b"001")?;
    let held = Some(place(alloc, 32, b"001")?);
    let parent = Some(place(alloc, 32, b"001")?);
    let session = standing(alloc, at, held, parent);
    let change = replacement(alloc, 32, b"001", b"01zz")?;
    let (kept, looks) = left(alloc, &session, &change)?;
    assert_eq!(rt; address(&kept.anchor), 32);
    assert_eq!(rt; address_of(&kept.held), None);
    assert_eq!(rt; address_of(&kept.parent), Some(32));
    assert_eq!(rt; looks, 0);
    Ok(())
}

#[test]
fn a_hold_below_a_replaced_row_stays(rt: HostRuntime) -> Result<(), Fail> {
    let alloc = rt.alloc();
    let at = place(alloc, 48, b"001")?;
    let held = Some(place(alloc, 48, b"001")?);
    let session = standing(alloc, at, held, None);
    let change = replacement(alloc, 32, b"001", b"01zz")?;
    let (kept, _) = left(alloc, &session, &change)?;
    assert_eq!(rt; address_of(&kept.held), Some(48));
    Ok(())
}

#[test]
fn an_insertion_leaves_all(rt: HostRuntime) -> Result<(), Fail> {
    let alloc = rt.alloc();
    let at = place(alloc, 48, b"001")?;
    let held = Some(place(alloc, 48, b"001")?);
    let parent = Some(place(alloc, 32, b"001")?);
    let session = standing(alloc, at, held, parent);
    let change = insertion_of_g(alloc)?;
    let (kept, looks) = left(alloc, &session, &change)?;
    assert_eq!(rt; address(&kept.anchor), 48);
    assert_eq!(rt; address_of(&kept.held), Some(48));
    assert_eq!(rt; address_of(&kept.parent), Some(32));
    assert_eq!(rt; looks, 0);
    Ok(())
}
