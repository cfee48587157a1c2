//! Why a cell doesn't take a commit.

use s57_types::RecName;

/// Why a cell doesn't take edits of the right form.
#[derive(Clone, Copy, Debug, PartialEq, Eq)]
pub enum StateRefusal {
    /// An addition has the name of a record of the cell.
    AddExists(RecName),
    /// A replacement has the name of no record of the cell.
    SetMissing(RecName),
    /// A deletion has the name of no record of the cell.
    DelMissing(RecName),
    /// The edited cell would have so many records, which is over the limit.
    CellFull(u32),
    /// The edited cell would have more findings than the limit.
    FindingsFull,
    /// The first head record of the edited cell would have so many bytes, which is over the limit.
    HeadTooLong(u32),
}
