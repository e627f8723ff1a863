//! Sources and sites: in memory, told and proved against their traits; and those of a real program, which
//! tell nothing.
//!
//! - `call.rt`: `Call`, one recorded call of a site in memory;
//! - `file_site.rt`: `FileSite`: a file of the system, and standard output;
//! - `image.rt`: an image in memory, written over in place;
//! - `input_source.rt`: `InputSource`: standard input;
//! - `mem_site.rt`: `MemSite`: a site in memory that keeps its calls;
//! - `mem_source.rt`: `MemSource` and `SureSource`: sources over a text in memory;
//! - `stop.rt`: what a stop may leave, replayed from recorded calls;
//! - `sure_site.rt`: `SureSite`: a site in memory that tells its room.
#![tactic(auto)]

mod call;
mod file_site;
mod image;
mod input_source;
mod mem_site;
mod mem_source;
mod stop;
mod sure_site;

pub use call::Call;
pub use file_site::FileSite;
pub use input_source::InputSource;
pub use mem_site::MemSite;
pub use mem_source::{MemSource, SureSource};
pub use sure_site::SureSite;

#[cfg(test)]
mod tests;
