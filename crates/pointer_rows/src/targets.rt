// Entries that move, whose pointers are healed, and whose targets are found, beside another index and an indirect list.
ghost use Rattle.std.specs.Prelude.{ℕ, ◌<◌, length, IfOk};
ghost use Rattle.eps_pointers.specs.Target.{HasAnchors};

use crate::indexes::{entry_of, schema_of};
use crate::{OpenIndex, OpenList};
use eps_pointers::Ile;
use hal_base::{Bytes, Cursor, PartState};
use hal_schema::Schema;
use memory_shelf::QuietShelf;
use secondary_index::AddFault;
use std::test::Fail;

/// A partition that is being reorganized, up to a root key.
fn moving(rt: &HostRuntime, last: &[u8]) -> Result<PartState, Fail>
    ensures { IfOk result (λ state. (anchors : ℕ) → HasAnchors anchors state.cursor) }
{
    Ok(PartState {
        part: 1,
        number: 2,
        side: b'A',
        state: b'C',
        cursor: Cursor::At(Bytes::from_slice(rt.alloc(), last)?),
    })
}

/// An index with the entries of these numbers.
fn index_of(
    rt: &HostRuntime,
    shelf: QuietShelf,
    schema: &Schema,
    numbers: &[u8],
) -> Result<OpenIndex<QuietShelf>, Fail>
    requires { 0 < length schema.now.indexes }
{
    let Ok(mut index) = OpenIndex::new(rt.alloc(), shelf, schema, 0) else {
        return Err("opened".into());
    };
    for number in numbers {
        let entry = entry_of(rt, 240, *number)?;
        if index.add(&entry) != Ok(true) {
            return Err("added".into());
        }
    }
    Ok(index)
}

/// A shelf on which the other index has an entry.
fn shelf_of(rt: &HostRuntime, schema: &Schema) -> Result<QuietShelf, Fail>
    requires { 1 < length schema.now.indexes }
{
    let Ok(mut other) = OpenIndex::new(rt.alloc(), QuietShelf::new(rt.alloc(), 8), schema, 1) else {
        return Err("opened".into());
    };
    let entry = entry_of(rt, 237, b'5')?;
    if other.add(&entry) != Ok(true) {
        return Err("added".into());
    }
    Ok(other.into_shelf())
}

#[test]
fn an_entry_moves_to_a_key_that_is_free(rt: HostRuntime) -> Result<(), Fail> {
    let schema = schema_of(&rt)?;
    let mut index = index_of(&rt, QuietShelf::new(rt.alloc(), 8), &schema, &[2, 3, 4])?;
    let old = entry_of(&rt, 240, 3)?;
    let new = entry_of(&rt, 240, 30)?;
    let taken = entry_of(&rt, 240, 4)?;
    assert_eq!(rt; index.move_entry(old.key.as_slice(), &new), Ok(true));
    assert_eq!(rt; index.remove(old.key.as_slice()), Ok(false));
    assert_eq!(rt;
        index.move_entry(new.key.as_slice(), &taken),
        Err(AddFault::Taken)
    );
    assert_eq!(rt; index.remove(new.key.as_slice()), Ok(false));
    assert_eq!(rt; index.move_entry(taken.key.as_slice(), &taken), Ok(true));
    assert_eq!(rt; index.remove(taken.key.as_slice()), Ok(true));
    Ok(())
}

#[test]
fn a_moved_target_is_found_by_the_list(rt: HostRuntime) -> Result<(), Fail> {
    let schema = schema_of(&rt)?;
    let Some(part) = schema.parts.as_slice().first() else {
        return Err("a partition".into());
    };
    let (low, high) = (entry_of(&rt, 240, b'5')?, entry_of(&rt, 240, b'6')?);
    let shelf = shelf_of(&rt, &schema)?;
    let (shelf, index) = index_of(&rt, shelf, &schema, b"56")?.into_parts();
    let Ok(mut list) = OpenList::new(rt.alloc(), shelf) else {
        return Err("opened the list".into());
    };
    let before = moving(&rt, b"004")?;
    let state = moving(&rt, b"005")?;
    let home = Ile {
        addr: 4112,
        number: 3,
    };
    assert_eq!(rt;
        list.resolve(&index, &low, part, &before),
        Ok(Some(low.eps.addr))
    );
    assert_eq!(rt; list.resolve(&index, &low, part, &state), Ok(None));
    assert_eq!(rt;
        list.resolve(&index, &high, part, &state),
        Ok(Some(high.eps.addr))
    );
    assert_eq!(rt; list.set(low.eps.ilk, 1, home), Ok(()));
    assert_eq!(rt; list.resolve(&index, &low, part, &state), Ok(Some(4112)));
    Ok(())
}

#[test]
fn a_healed_pointer_needs_no_list(rt: HostRuntime) -> Result<(), Fail> {
    let schema = schema_of(&rt)?;
    let Some(part) = schema.parts.as_slice().first() else {
        return Err("a partition".into());
    };
    let (low, high) = (entry_of(&rt, 240, b'5')?, entry_of(&rt, 240, b'6')?);
    let shelf = shelf_of(&rt, &schema)?;
    let mut index = index_of(&rt, shelf, &schema, b"56")?;
    assert_eq!(rt; index.heal(low.key.as_slice(), 3, 4112), Ok(true));
    assert_eq!(rt; index.heal(&[7; 240], 3, 4112), Ok(false));
    let Ok(Some(healed)) = index.entries_before(high.key.as_slice()) else {
        return Err("the healed entry".into());
    };
    let Ok(Some(after)) = index.entries_after(Some(low.key.as_slice())) else {
        return Err("the entry behind it".into());
    };
    assert_eq!(rt;
        (healed.eps.number, healed.eps.addr, healed.eps.ilk),
        (3, 4112, low.eps.ilk)
    );
    assert_eq!(rt; healed.root, low.root);
    assert_eq!(rt; (after.eps, after.root), (high.eps, high.root));
    let (shelf, index) = index.into_parts();
    let Ok(mut list) = OpenList::new(rt.alloc(), shelf) else {
        return Err("opened the list".into());
    };
    let state = moving(&rt, b"005")?;
    assert_eq!(rt; list.resolve(&index, &healed, part, &state), Ok(Some(4112)));
    Ok(())
}
