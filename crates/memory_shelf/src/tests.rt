//! A few pages of two data sets.
ghost use Rattle.std.specs.Prelude.{◌<◌, length, IsTrue};
ghost use Rattle.hal_base.specs.Pages.{SameSets};

use crate::MemShelf;
use hal_base::{BLOCK, Live, PageFault, SetId, Shelf};

const FIRST: SetId = SetId {
    part: 1,
    number: 1,
    letter: b'A',
};

const SECOND: SetId = SetId {
    part: 2,
    number: 1,
    letter: b'X',
};

/// Stages a page as it is.
fn stage_again<H: Shelf>(shelf: &mut H, set: SetId, n: u16) -> bool
    requires live { IsTrue (H.seen shelf.old).live }
    requires below { n < length ((H.seen shelf.old).places set) }
    ensures { SameSets (H.seen shelf.old).places (H.seen shelf.new).places }
{
    let mut page = [0; BLOCK];
    shelf.fetch_page(set, n, &mut page).is_ok() && shelf.stage_page(set, n, &page).is_ok()
}

#[test]
fn pages_stand_by_data_set_until_no_block_is_free(rt: HostRuntime) {
    let mut shelf = MemShelf::new(rt.alloc(), 3);
    assert_eq!(rt; shelf.grow(FIRST, 1), Ok(0));
    assert_eq!(rt; shelf.grow(SECOND, 2), Ok(0));
    assert_eq!(rt; shelf.grow(FIRST, 1), Ok(1));
    assert_eq!(rt; shelf.grow(SECOND, 2), Err(PageFault::NoRoom));
    assert_eq!(rt; shelf.pages(FIRST), 2);
    assert_eq!(rt; shelf.pages(SECOND), 1);
    let mut page = [0; BLOCK];
    assert_eq!(rt; shelf.fetch_page(FIRST, 1, &mut page), Ok(()));
    assert_eq!(rt; &page[..8], [1, b'A', 0, 1, 0, 1, 0, 1].as_slice());
    assert_eq!(rt; &page[16..20], [0, 0, 15, 240].as_slice());
    assert!(rt; stage_again(&mut shelf, FIRST, 1));
    let mut again = [7; BLOCK];
    assert_eq!(rt; shelf.fetch_page(FIRST, 1, &mut again), Ok(()));
    assert_eq!(rt; again, page);
    assert_eq!(rt; shelf.fetch_page(SECOND, 0, &mut again), Ok(()));
    assert_eq!(rt; &again[..8], [2, b'X', 0, 2, 0, 1, 0, 0].as_slice());
    assert!(rt; shelf.is_live());
}
