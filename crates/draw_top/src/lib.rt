//! The program that draws, as one call over a file store and a sink.
#![tactic(auto)]

mod drawing;
mod ending;

pub use drawing::draw;
pub use ending::{Ending, push_ending};
