//! What holds of the findings of every cell: they ascend, and they follow what is read, so that cells which answer alike to the
//! keys of a subject's read set give it the same findings.
#![tactic(auto)]

mod law;

pub use law::{findings_ascend, findings_follow_reads};
