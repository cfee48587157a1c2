//! What a rule finds.

use crate::key::{Keys, Subject};
use s57_types::Items;

/// One finding about a subject: the number of its kind from 1, and its numbers. Numbers that the kind doesn't use
/// are 0. Findings are ordered by kind, then by their numbers.
#[derive(Clone, Copy, Debug, PartialEq, Eq, PartialOrd, Ord, Hash)]
pub struct Finding {
    pub kind: u8,
    pub nums: [u32; 4],
}

/// The findings about one subject, ascending, and its read set: the keys that they depend on.
#[derive(Debug, Drop)]
pub struct Row {
    pub subject: Subject,
    pub findings: Findings,
    pub reads: Keys,
}

/// Findings one after the other.
pub type Findings = Items<Finding>;

/// Rows one after the other.
pub type Rows = Items<Row>;
