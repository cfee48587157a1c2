//! What the records of an update file make of a cell, or the update's first fault.
#![tactic(auto)]

mod control;
mod fault;
mod identifiers;

pub use control::{Control, ControlTag, Instruction};
pub use fault::UpdateFault;
pub use identifiers::Identifiers;
