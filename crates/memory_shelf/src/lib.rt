//! Shelves in memory, over which the stores of pages are tested: one that tells its content, and one that doesn't.
//!
//! - `shelf.rt`: `MemShelf`, which tells its pages;
//! - `quiet.rt`: `QuietShelf`, the same pages untold.
#![tactic(auto)]

mod quiet;
mod shelf;

pub use quiet::QuietShelf;
pub use shelf::MemShelf;

#[cfg(test)]
mod tests;
