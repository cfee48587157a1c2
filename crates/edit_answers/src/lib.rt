//! What edits leave under the keys that they touch: the keys, and for each key its pointers or bearers.
#![tactic(auto)]

mod after;
mod law;
mod left;
mod touched;

pub use after::EditAnswers;
pub use law::edits_leave_their_records;
pub use touched::{push_answered, push_touched};
