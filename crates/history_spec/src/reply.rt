//! The answers to views and commits.

use crate::refusal::StateRefusal;
use cell_spec::Edit;
use edit_sets::FormFault;
use s57_types::RecName;

/// The answer to a view or a commit.
#[derive(Debug, Drop)]
pub enum Reply {
    /// The number of the last accepted commit, and how many findings the cell has.
    Viewed {
        number: u32,
        findings: u32,
    },
    /// The draft has this fault.
    Formed(FormFault),
    /// An accepted commit above the base edits a record or the head, and this one edits or guards the same: the least number of such a commit,
    /// the least such name in it, the desk of that commit, and its edit of that name.
    Newer {
        number: u32,
        name: RecName,
        desk: u32,
        edit: Edit,
    },
    /// The cell doesn't take the edits.
    Refused(StateRefusal),
    /// The commit has this number, and the cell now so many findings.
    Accepted {
        number: u32,
        findings: u32,
    },
}

/// An answer without the edit that it may show.
#[derive(Clone, Copy, Debug, PartialEq, Eq)]
pub enum Brief {
    Viewed {
        number: u32,
        findings: u32,
    },
    Formed(FormFault),
    Newer {
        number: u32,
        name: RecName,
        desk: u32,
    },
    Refused(StateRefusal),
    Accepted {
        number: u32,
        findings: u32,
    },
}
