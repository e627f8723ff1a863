ghost use Rattle.std.specs.Prelude.{◌≡◌, IfOk, IsTrue, None, codes};
ghost use Rattle.hal_schema.specs.First.{first_schema};
ghost use Rattle.hal_schema.specs.Forest.{is_forest};
ghost use Rattle.position_state.specs.declared.spot.Change.TheVariants.{Delete};
ghost use Rattle.position_state.specs.Examples.{all_at, name_at, root_row, two_roots};
ghost use Rattle.position_state.specs.Lawful.{IsLawful, Stands};

use crate::{Anchor, Change, ListWalk, Session, Spot, Walk, WalkFault};
use hal_base::{Bytes, Ilk, Key, List, Live, Memory};
use hal_schema::{Row, Schema, first_schema};
use std::alloc::Global;
use std::test::Fail;

fn ilk(addr: u32) -> Ilk
    ensures { result ≡ name_at addr }
{
    Ilk {
        addr,
        part: 1,
        number: 1,
    }
}

fn root(alloc: Global, addr: u32, content: &[u8]) -> Result<Row, Memory>
    ensures { IfOk result (λ row. row ≡ root_row addr content.now) }
{
    Ok(Row {
        name: ilk(addr),
        code: 1,
        parent: None,
        content: Bytes::from_slice(alloc, content)?,
    })
}

fn two_roots(alloc: Global) -> Result<List<Row>, Memory>
    ensures forest { IfOk result (λ rows. IsTrue (is_forest first_schema rows)) }
    ensures rows { IfOk result (λ rows. rows ≡ two_roots) }
{
    let mut rows = List::new(alloc);
    rows.push(root(alloc, 16, b"001aa")?)?;
    rows.push(root(alloc, 48, b"002bb")?)?;
    Ok(rows)
}

fn at_root(alloc: Global, addr: u32, root: &[u8]) -> Result<Anchor, Memory>
    ensures { IfOk result (λ at. at ≡ (all_at addr root.now).anchor) }
{
    Ok(Anchor::At {
        name: ilk(addr),
        root: Bytes::from_slice(alloc, root)?,
        entry: None,
    })
}

/// A session at a root, which it holds and has as its parent.
fn all_at(alloc: Global, addr: u32, root: &[u8]) -> Result<Session, Memory>
    ensures { IfOk result (λ session. session ≡ all_at addr root.now) }
{
    Ok(Session {
        options: Bytes::new(alloc),
        index: None,
        anchor: at_root(alloc, addr, root)?,
        held: Some(at_root(alloc, addr, root)?),
        parent: Some(at_root(alloc, addr, root)?),
    })
}

/// What is left of a session over the two roots, and after how many looks.
fn left(alloc: Global, session: &Session, change: &Change) -> Result<(Session, u64), WalkFault>
    requires plain { session.now.index ≡ None }
    requires stands { Stands first_schema two_roots session.now }
    requires lawful { IsLawful first_schema two_roots change.now }
{
    let schema = first_schema(alloc)?;
    let mut walk = ListWalk::new(alloc, &schema, two_roots(alloc)?);
    let left = session.after_change(&schema, change, &mut walk)?;
    Ok((left, walk.looks()))
}

fn address(at: &Anchor) -> u32 {
    match at {
        Anchor::Front => 0,
        Anchor::At { name, .. } => name.addr,
    }
}

fn key_of(spot: &Option<Spot>) -> &[u8] {
    match spot {
        None => &[],
        Some(spot) => spot.key.as_slice(),
    }
}

#[test]
fn neighbours_of_two_roots(rt: HostRuntime) -> Result<(), Fail> {
    let alloc = rt.alloc();
    let schema = first_schema(alloc)?;
    let mut walk = ListWalk::new(alloc, &schema, two_roots(alloc)?);
    assert!(rt; walk.is_live());
    let first = walk.after(None, &Anchor::Front)?;
    assert_eq!(rt; key_of(&first), b"001".as_slice());
    let last = walk.at_root(b"002")?;
    assert_eq!(rt; key_of(&last), b"002".as_slice());
    let none = walk.at_root(b"003")?;
    assert_eq!(rt; key_of(&none), b"".as_slice());
    assert_eq!(rt; walk.looks(), 3);
    assert_eq!(rt; walk.free(), 65_536);
    Ok(())
}

#[test]
fn each_look_at_two_roots(rt: HostRuntime) -> Result<(), Fail> {
    let alloc = rt.alloc();
    let schema = first_schema(alloc)?;
    let mut walk = ListWalk::new(alloc, &schema, two_roots(alloc)?);
    let none = walk.before(None, &Anchor::Front)?;
    assert_eq!(rt; key_of(&none), b"".as_slice());
    let none = walk.here(None, &Anchor::Front)?;
    assert_eq!(rt; key_of(&none), b"".as_slice());
    let taken = walk.taken(0, b"aa")?;
    assert!(rt; taken.is_none());
    assert_eq!(rt; walk.looks(), 3);
    Ok(())
}

fn deletion(alloc: Global, addr: u32, root: &[u8]) -> Result<Change, Memory>
    ensures { IfOk result (λ change. change ≡ Delete (name_at addr) root.now) }
{
    Ok(Change::Delete {
        name: ilk(addr),
        root: Bytes::from_slice(alloc, root)?,
    })
}

#[test]
fn a_deletion_leaves_the_element_before(rt: HostRuntime) -> Result<(), Fail> {
    let alloc = rt.alloc();
    let second = all_at(alloc, 48, b"002")?;
    let delete = deletion(alloc, 48, b"002")?;
    let (gone, looks) = left(alloc, &second, &delete)?;
    assert_eq!(rt; address(&gone.anchor), 16);
    assert!(rt; gone.held.is_none());
    assert!(rt; gone.parent.is_none());
    assert_eq!(rt; looks, 1);
    Ok(())
}

#[test]
fn a_deletion_elsewhere_is_not_looked_for(rt: HostRuntime) -> Result<(), Fail> {
    let alloc = rt.alloc();
    let first = all_at(alloc, 16, b"001")?;
    let delete = deletion(alloc, 48, b"002")?;
    let (far, looks) = left(alloc, &first, &delete)?;
    assert_eq!(rt; address(&far.anchor), 16);
    assert!(rt; far.held.is_some());
    assert_eq!(rt; looks, 0);
    Ok(())
}

#[test]
fn a_deletion_of_the_first_leaves_the_front(rt: HostRuntime) -> Result<(), Fail> {
    let alloc = rt.alloc();
    let first = all_at(alloc, 16, b"001")?;
    let delete = deletion(alloc, 16, b"001")?;
    let (front, looks) = left(alloc, &first, &delete)?;
    assert_eq!(rt; address(&front.anchor), 0);
    assert_eq!(rt; looks, 1);
    Ok(())
}

#[test]
fn a_replacement_ends_the_hold_alone(rt: HostRuntime) -> Result<(), Fail> {
    let alloc = rt.alloc();
    let second = all_at(alloc, 48, b"002")?;
    let replace = Change::Replace {
        name: ilk(48),
        root: Bytes::from_slice(alloc, b"002")?,
        content: Bytes::from_slice(alloc, b"002cc")?,
    };
    let (struck, looks) = left(alloc, &second, &replace)?;
    assert_eq!(rt; address(&struck.anchor), 48);
    assert!(rt; struck.held.is_none());
    assert!(rt; struck.parent.is_some());
    assert_eq!(rt; looks, 0);
    let (same, _) = left(alloc, &second, &Change::Nothing)?;
    assert!(rt; same.held.is_some());
    Ok(())
}
