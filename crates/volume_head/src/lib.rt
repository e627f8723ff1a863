//! The head and the definition of a volume, read; the volume without records, written.
//!
//! - `definition.rt`: the canonical text of a schema, both ways;
//! - `fault.rt`: why no definition was read, and why no volume was written;
//! - `head.rt`: the head as bytes;
//! - `laws.rt`: what the definitions give;
//! - `read.rt`: the head and the definition of a site;
//! - `write.rt`: a volume without records.
#![tactic(auto)]

mod definition;
mod fault;
mod head;
mod laws;
mod read;
mod write;

pub use definition::{canonical_text, schema_of};
pub use fault::{HeadFault, WriteFault};
pub use laws::{definitions_are_short, empty_volumes_are_theirs, volumes_are_of_one_schema};
pub use read::read_definition;
pub use write::write_volume;
