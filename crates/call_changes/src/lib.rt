//! ISRT, REPL and DLET decided by looks: what they are answered, what they change, and what they leave of their session.
//!
//! - `answer`: what a call of a script is answered, and what it leaves of the open sessions;
//! - `calls`: the decision of a call, by its function;
//! - `delete`: the decision of a DLET; `replace`: that of a REPL, over `held` (the held row) and `moves` (its entries
//!   in the indexes);
//! - `insert`: the decision of an ISRT, over `parent` (the element of the parent), `twins` (whether one has the new row's
//!   key) and `enters` (the new row's entries in the indexes);
//! - `laws`: what decisions and answers keep;
//! - `content`: the data of a call at the length of a type; `entry`: keys of entries;
//! - `outcome`: refusals, and changes that are carried out.
//!
//! `specs/Outcome.antt` has what a decision by looks is, `specs/Moves.antt` what a REPL does to the entries of its row,
//! `specs/Inserts.antt` the row that an ISRT inserts, by the element of its parent, `specs/Answer.antt` what calls are
//! answered.
#![tactic(auto)]

mod answer;
mod calls;
mod content;
mod delete;
mod enters;
mod entry;
mod held;
mod insert;
mod laws;
mod moves;
mod outcome;
mod parent;
mod replace;
mod twins;

pub use answer::{Answer, answer_call};
pub use calls::decide;
pub use delete::decide_delete;
pub use insert::decide_insert;
pub use laws::{
    answers_keep_a_forest, answers_lead, decisions_are_lawful, decisions_keep_a_forest,
};
pub use replace::decide_replace;
