//! The commands of a script.

use cell_spec::Edit;
use s57_types::RecName;

/// One command of a session.
#[derive(Debug, Drop)]
pub enum Command {
    /// Take in all accepted commits.
    View,
    /// Commit the draft, and empty it.
    Commit,
    /// Empty the draft.
    Drop,
    /// Show so many findings of the session's copy of the cell.
    List(u32),
    /// Put an edit into the draft.
    Push(Edit),
    /// Put a guard into the draft: a commit rests on the record of this name too, though the draft doesn't edit it.
    Guard(RecName),
}
