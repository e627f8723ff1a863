// A full page that splits, at want of memory too: run with each allocation failing in turn.
use crate::OpenSet;
use hal_base::PageFault;
use memory_shelf::QuietShelf;
use std::test::Fail;

/// The rows of the even numbers below 80 are there, each with its number, and that of 41 is as wanted.
fn holds(set: &mut OpenSet<QuietShelf>, wanted: Option<u32>) -> bool {
    for key in 0..40u16 {
        match set.get(2 * key) {
            Ok(found) if found == Some(u32::from(2 * key)) => {}
            Err(PageFault::Memory) => return true,
            _ => return false,
        }
    }
    match set.get(41) {
        Ok(found) => found == wanted,
        Err(fault) => fault == PageFault::Memory,
    }
}

#[test]
fn a_split_that_wants_memory_leaves_all_rows(rt: HostRuntime) -> Result<(), Fail> {
    let Ok(mut set) = OpenSet::new(rt.alloc(), QuietShelf::new(rt.alloc(), 8)) else {
        return Ok(());
    };
    for key in 0..40u16 {
        if set.put(2 * key, u32::from(2 * key)).is_err() {
            return Ok(());
        }
    }
    let wanted = match set.put(41, 41) {
        Ok(()) => Some(41),
        Err(PageFault::Memory) => None,
        Err(_) => return Err("a fault that isn't want of memory".into()),
    };
    assert!(rt; holds(&mut set, wanted), "kept open");
    let Ok(mut set) = set.reopened(rt.alloc()) else {
        return Ok(());
    };
    assert!(rt; holds(&mut set, wanted), "opened anew");
    if wanted.is_none() {
        assert_eq!(rt; set.put(41, 41), Ok(()));
        assert!(rt; holds(&mut set, Some(41)), "put again");
    }
    Ok(())
}

#[test]
fn a_row_goes_in_once_and_a_part_of_it_is_written_over(rt: HostRuntime) -> Result<(), Fail> {
    let Ok(mut set) = OpenSet::new(rt.alloc(), QuietShelf::new(rt.alloc(), 8)) else {
        return Err("opened".into());
    };
    assert_eq!(rt; set.overwrite(7, 1), Ok(false));
    for key in 0..90u16 {
        assert_eq!(rt; set.insert(key, 65536 + u32::from(key)), Ok(true));
        assert_eq!(rt; set.insert(key, 1), Ok(false));
    }
    assert_eq!(rt; set.overwrite(7, 9), Ok(true));
    assert_eq!(rt; set.overwrite(90, 9), Ok(false));
    assert_eq!(rt; set.get(6), Ok(Some(65542)));
    assert_eq!(rt; set.get(7), Ok(Some(65545)));
    assert_eq!(rt; set.get(8), Ok(Some(65544)));
    Ok(())
}
