//! Drills: generated scripts that are run on a generated cell by one thread, the sessions in turn.
#![tactic(auto)]

mod counts;
mod lines;
mod run;
mod turns;

pub use counts::Drilled;
pub use lines::{push_drill, push_made};
pub use run::drill;
