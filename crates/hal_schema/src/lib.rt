//! Checked definitions: what a schema keeps, its segment types, indexes and partitions, and the rows that it orders.
//!
//! - `raw`, `plain`: what the texts of a definition say, before it is checked, and which names it may have;
//! - `build` over `judge`, `rules`, `built` and `fault`: a schema, or the least rule that a raw definition breaks;
//! - `schema`, `row`: what a checked definition says, and a row of a forest;
//! - `types`, `segment`, `copy`, `entry_key`, `partition`, `roots`: calls on a schema;
//! - `text_fault`: why a text of a definition isn't read;
//! - `first`: the schema of the first path; `laws`: what every schema keeps.
//!
//! `specs/` has the definitions of forests: rows, paths, insertion, spans, index entries and the order of roots.
#![tactic(auto)]

mod build;
mod built;
mod copy;
mod entry_key;
mod fault;
mod first;
mod judge;
mod laws;
mod partition;
mod plain;
mod raw;
mod roots;
mod row;
mod rules;
mod schema;
mod segment;
mod text_fault;
mod types;

pub use fault::{Place, SchemaFault};
pub use first::first_schema;
pub use laws::schemas_are_kept;
pub use partition::select;
pub use raw::{RawDbd, RawField, RawIndex, RawPart, RawParts, RawSchema, RawType};
pub use roots::{anchor, root_cmp, root_order_is_total};
pub use row::Row;
pub use schema::{Field, IndexDef, KeyField, PartDef, Schema, SegType};
pub use segment::{is_parent_code, key_in, level_of, parent_code, portion, row_key, type_of};
pub use text_fault::TextFault;
