//! The rules on the sides of edges in Group 1, and on identifiers: their findings, and the read sets that they depend on.
#![tactic(auto)]

mod finding;
mod identity;
mod side;
mod uses;

pub use identity::{findings_of_ident, verdict_ident};
pub use side::{findings_of_side, verdict_side};
