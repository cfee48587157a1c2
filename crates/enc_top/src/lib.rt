//! The program as one call over a file store and an output sink.
#![tactic(auto)]

mod edge;
mod first;
mod law;
mod made;
mod operation;
mod probed;
mod room;
mod top;
mod update;
mod words;
mod work;

pub use law::one_answer_is_asked;
pub use report_text::{Status, print_status};
pub use top::{run, run_plain, run_room};
