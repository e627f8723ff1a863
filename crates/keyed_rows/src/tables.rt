// A set that is kept open across calls, beside std's map.
use crate::OpenSet;
use memory_shelf::QuietShelf;
use std::collections::BTreeMap;
use std::test::Fail;

/// Whether the rows of the set, from the first to the last, are the entries of the map.
fn is_map(set: &mut OpenSet<QuietShelf>, map: &BTreeMap<u16, u32>) -> Result<bool, Fail> {
    let mut last = None;
    for (key, number) in map {
        let row = set.next_after(last).ok().ok_or("next")?;
        if row != Some((*key, *number)) {
            return Ok(false);
        }
        last = Some(*key);
    }
    Ok(set.next_after(last).ok().ok_or("past the last")?.is_none())
}

#[test]
fn a_set_kept_open_is_the_map_after_each_put(rt: HostRuntime) -> Result<(), Fail> {
    for step in [1, 599, 233] {
        let Ok(mut set) = OpenSet::new(rt.alloc(), QuietShelf::new(rt.alloc(), 64)) else {
            return Err("opened".into());
        };
        let mut map = BTreeMap::new(rt.alloc());
        for turn in 0..600u32 {
            let key = (turn * step % 601) as u16;
            assert_eq!(rt; set.put(key, turn), Ok(()));
            let _ = map.insert(key, turn).ok().ok_or("inserted")?;
            assert_eq!(rt; set.get(key), Ok(Some(turn)));
            let next = map
                .range(key + 1..)
                .next()
                .map(|entry| (*entry.0, *entry.1));
            assert_eq!(rt; set.next_after(Some(key)), Ok(next), "{step} {turn}");
            if turn % 50 == 49 {
                assert!(rt; is_map(&mut set, &map)?, "{step} {turn}");
            }
        }
    }
    Ok(())
}

#[test]
fn rows_go_as_they_go_from_the_map(rt: HostRuntime) -> Result<(), Fail> {
    let Ok(mut set) = OpenSet::new(rt.alloc(), QuietShelf::new(rt.alloc(), 16)) else {
        return Err("opened".into());
    };
    let mut map = BTreeMap::new(rt.alloc());
    for turn in 0..300u32 {
        let key = (turn * 77 % 307) as u16;
        assert_eq!(rt; set.put(key, turn), Ok(()));
        let _ = map.insert(key, turn).ok().ok_or("inserted")?;
        let gone = (turn * 41 % 307) as u16;
        assert_eq!(rt; set.remove(gone), Ok(map.remove(&gone).is_some()));
        assert_eq!(rt; set.get(key), Ok(map.get(&key).copied()));
        if turn % 20 == 19 {
            assert!(rt; is_map(&mut set, &map)?, "{turn}");
        }
    }
    Ok(())
}
