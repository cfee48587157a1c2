//! Findings one after the other.

use cell_spec::{Finding, Subject};
use s57_types::Items;

/// A finding and what it is about.
#[derive(Clone, Copy, Debug, PartialEq, Eq)]
pub struct SubjectFinding {
    pub subject: Subject,
    pub finding: Finding,
}

/// Findings with what they are about.
pub type Findings = Items<SubjectFinding>;
