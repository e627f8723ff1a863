//! Load rows: a database filled from text, and a row as such text.
//!
//! A text of load rows is CSV without a header, a row a record: segment, form and value. A row's parent is the last row
//! of its parent type on the path of the row before it. Nothing is kept of the rows that were loaded but that path, so
//! memory grows with its depth (and with the longest record of the text), and not with the text.
//!
//! - `taker`: `RowTaker`, what takes one row at a time;
//! - `records`: the loop over the records, and `row`: one of them;
//! - `said`: what a record says by itself;
//! - `path`: what is kept of the rows before; `twins`: what the newest sibling tells of a row;
//! - `fault`: why a row is refused;
//! - `unload`: a row as a record;
//! - `laws`: what a load keeps, and what unloaded rows say.
//!
//! `specs/Text.antt` has what a text says, `specs/Placing.antt` where a row goes, `specs/Refusals.antt` the table of
//! refusals, `specs/Loading.antt` what a load does, `specs/Taker.antt` what is seen of a taker, `specs/Unloading.antt`
//! the text of a row; `specs/Laws.antt` has the laws. `specs/Carrying.antt` has words of private functions: what is kept on
//! the way.
#![tactic(auto)]

mod fault;
mod laws;
mod path;
mod records;
mod row;
mod said;
mod taker;
mod twins;
mod unload;

pub use laws::{
    loading_keeps, taking_keeps, unloaded_rows_are_said, unloaded_rows_come_back,
    unloaded_rows_load_again,
};
pub use records::{LoadFault, load};
pub use taker::{RowTaker, TakeFault};
pub use unload::unload_row;
