//! The editing history of a cell and its report, as definitions, with the answers that they speak of.
#![tactic(auto)]

mod entry;
mod refusal;
mod reply;

pub use entry::{Asked, Entry};
pub use refusal::StateRefusal;
pub use reply::{Brief, Reply};
