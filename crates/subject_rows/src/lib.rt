//! The row of any subject of a chart cell: its findings and its read set.
#![tactic(auto)]

mod names;
mod row;

pub use names::part_names;
pub use row::row_of;
