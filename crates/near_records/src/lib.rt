//! What a cell answers to the keys of a read set, each looked up once, or taken from what is known already.
#![tactic(auto)]

mod ends;
mod near;
mod slots;
mod told;

pub use ends::{LineEnd, line_end};
pub use near::{Answer, NearRecords, gather, gather_beside};
pub use told::Near;
