//! Writing reports: the lines of a session, the findings of a cell, the whole report of a log, and the line of a status.
#![tactic(auto)]

mod commit;
mod findings;
mod first;
mod order;
mod reply;
mod report;
mod status;
mod transcript;

pub use findings::print_findings;
pub use report::print_report;
pub use status::{Status, print_status};
pub use transcript::Transcript;
