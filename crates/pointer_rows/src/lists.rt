// An indirect list that is kept open, over a shelf in memory.
use crate::OpenList;
use eps_pointers::Ile;
use hal_base::{Ilk, PageFault};
use memory_shelf::QuietShelf;
use std::test::Fail;

fn name_of(number: u32) -> Ilk {
    Ilk {
        addr: number,
        part: 1,
        number: 1,
    }
}

fn home_of(number: u32) -> Ile {
    Ile {
        addr: number ^ 0xffff,
        number: 2,
    }
}

#[test]
fn each_name_and_code_has_its_own_entry(rt: HostRuntime) -> Result<(), Fail> {
    let Ok(mut list) = OpenList::new(rt.alloc(), QuietShelf::new(rt.alloc(), 8)) else {
        return Err("opened".into());
    };
    for number in 0..600 {
        let code = (number % 3) as u8;
        assert_eq!(rt;
            list.set(name_of(number / 3), code, home_of(number)),
            Ok(())
        );
    }
    for number in 0..600 {
        let code = (number % 3) as u8;
        assert_eq!(rt;
            list.find(name_of(number / 3), code),
            Ok(Some(home_of(number))),
            "{number}"
        );
    }
    assert_eq!(rt; list.find(name_of(0), 3), Ok(None));
    assert_eq!(rt; list.find(name_of(200), 0), Ok(None));
    Ok(())
}

#[test]
fn an_entry_is_set_again_and_dropped_once(rt: HostRuntime) -> Result<(), Fail> {
    let Ok(mut list) = OpenList::new(rt.alloc(), QuietShelf::new(rt.alloc(), 1)) else {
        return Err("opened".into());
    };
    assert_eq!(rt; list.pages(), 0);
    assert_eq!(rt; list.set(name_of(16), 2, home_of(1)), Ok(()));
    assert_eq!(rt; list.set(name_of(16), 2, home_of(2)), Ok(()));
    assert_eq!(rt; list.pages(), 1);
    assert_eq!(rt; list.find(name_of(16), 2), Ok(Some(home_of(2))));
    assert_eq!(rt; list.drop_entry(name_of(16), 1), Ok(false));
    assert_eq!(rt; list.drop_entry(name_of(16), 2), Ok(true));
    assert_eq!(rt; list.drop_entry(name_of(16), 2), Ok(false));
    assert_eq!(rt; list.find(name_of(16), 2), Ok(None));
    Ok(())
}

#[test]
fn no_room_is_said_where_no_block_is_free(rt: HostRuntime) -> Result<(), Fail> {
    let Ok(mut list) = OpenList::new(rt.alloc(), QuietShelf::new(rt.alloc(), 0)) else {
        return Err("opened".into());
    };
    assert_eq!(rt;
        list.set(name_of(16), 2, home_of(1)),
        Err(PageFault::NoRoom)
    );
    Ok(())
}
