//! A cell with all findings of it as one type: edits are planned on it, and what is planned is installed. A plan judges only what
//! the edits can change.
#![tactic(auto)]

mod bench;
mod count;
mod indexed;
mod load;
mod next;
mod plan;
mod prepared;
mod ready;
mod records;
mod refusal;
mod rejudge;
mod rejudged;
mod singles;
mod table;
mod verdicts;

pub use affected_subjects::Reach;
pub use bench::Bench;
pub use cell_findings::LoadRefusal;
pub use count::narrow;
pub use plan::BenchPlan;
pub use prepared::Prepared;
pub use refusal::{FINDING_LIMIT, PlanRefusal};
pub use singles::{reads_row, singles_of};
