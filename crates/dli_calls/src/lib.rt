//! DL/I calls: what each is answered, what it changes, and what it leaves of its session, as definitions on a list of
//! segments that know nothing of blocks.
//!
//! - `decision`: the answer to a call;
//! - `laws`: what refusals and gets leave.
//!
//! `specs/Ssas.antt` has what SSAs name and ask, `specs/Meets.antt` which elements of a view meet them, `specs/Gets.antt`
//! what a get finds and leaves, `specs/Changes.antt` what ISRT, REPL and DLET would do and need, `specs/Refusals.antt` the
//! table of refusals, and `specs/Decided.antt` the decision of a call.
#![tactic(auto)]

mod decision;
mod laws;

pub use decision::Decision;
pub use laws::{gets_leave_the_list, refusals_leave};
