//! The cells of one data set, and of one side of a partition, by their addresses. Pages stand on a shelf; each is a data
//! block of tiles, which are segments (cells) and holes.
//!
//!     address    letter, 4 bits    page, 16 bits    offset in the page, 12 bits
//!
//! A `CellStore` is one data set. It keeps of each page its largest hole, its free bytes, the hole behind its last cell,
//! and whether it holds a cell, and over these a tree of maxima. By these it finds the page of a new cell, and then reads
//! that page alone: its tiles are parsed, one run of them gives way to another, and the page is staged. A cell is read and
//! changed at its offset, and no other tile of its page is. What was read is tested before it is relied on, since a shelf
//! that tells no content may give other bytes each time. A `SideCells` has the stores of a side's ten
//! letters, and finds that of an address by the letter in it.
//!
//! A call is said by what it answers, by what it makes of the tiles of all pages and of the map from address to cell,
//! by what it leaves alone, and by when each fault comes. It reads one page at most, and each page keeps its head. The
//! store stands for its data set before and after it.
//!
//! `store.rt` has the store, `side.rt` the side
//! `open.rt`, `place.rt`, `append.rt`, `freeing.rt`, `setting.rt` the calls on a store; `edit.rt` finds and changes a cell
//! `listing.rt` the cells of a page, with their addresses
//! `side_cells.rt`, `side_room.rt`, `side_pages.rt` the calls on a side: cells found and changed, come and gone, listed
//! `address.rt`, `change.rt`, `growing.rt`, `spaces.rt` addresses, changes of a cell, new pages, what is kept of the pages
//! `page.rt` changes the tiles of one page, `tiles.rt` looks among them
//! `laws.rt` what is so of every open store and side
#![tactic(auto)]

mod address;
mod append;
mod change;
mod edit;
mod freeing;
mod growing;
mod laws;
mod listing;
mod open;
mod page;
mod place;
mod setting;
mod side;
mod side_cells;
mod side_pages;
mod side_room;
mod spaces;
mod store;
mod tiles;

pub use laws::{
    no_cell_is_at_zero, no_side_cell_is_at_zero, others_leave_a_side_open,
    others_leave_a_store_open, pages_list_the_cells,
};
pub use listing::PlacedCell;
pub use side::SideCells;
pub use store::CellStore;
