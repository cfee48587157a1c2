//! Splitting an edge by a new node, and joining two edges again: the edits that do it, which keep where every feature runs.
#![tactic(auto)]

mod attributes;
mod cause;
mod chain;
mod feature;
mod joining;
mod operation;
mod pairing;
mod refusal;
mod splitting;

pub use joining::join;
pub use operation::{EdgeJoin, EdgeSplit};
pub use refusal::OpRefusal;
pub use splitting::split;
