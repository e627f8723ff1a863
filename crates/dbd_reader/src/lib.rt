//! Database definitions as text: DBD source, read into a raw definition.
//!
//! - `reading`: the whole text, or the first line that breaks a rule;
//! - `lines`, `word`, `statement`: lines, words of a statement, and statements with what goes on in further lines;
//! - `operand`, `value`, `segm_value`, `field_value`: operands, and what their values say;
//! - `verdict`: which operands a statement takes, and the rules that they break;
//! - `meaning`, `draft`: what each statement says, and the statements in their order;
//! - `fault`: why a statement isn't read.
#![tactic(auto)]

mod draft;
mod fault;
mod field_value;
mod lines;
mod meaning;
mod operand;
mod reading;
mod segm_value;
mod statement;
mod value;
mod verdict;
mod word;

pub use reading::read_dbd;

#[cfg(test)]
mod tests;
