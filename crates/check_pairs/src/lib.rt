//! The rules on two connected nodes or edges of a chart cell: how they may meet.
#![tactic(auto)]

mod contact;
mod ends;
mod finding;
mod line;
mod part;
mod reads;
mod threads;
mod verdict;

pub use part::{ChainPart, part_named};
pub use threads::parts_cross_threads;
pub use verdict::{pair_findings, pair_row, verdict_pair};
