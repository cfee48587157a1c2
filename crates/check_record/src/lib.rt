//! The rules on a single record of a chart cell: its findings, and the read set that they depend on.
#![tactic(auto)]

mod asked;
mod blocks;
mod ends;
mod found;
mod line;
mod reads;
mod self_meet;
mod shape;
mod vector;
mod verdict;

pub use found::findings_of_rec;
pub use verdict::verdict_rec;
