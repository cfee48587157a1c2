//! Sessions that share a cell, each in a thread of its own.
#![tactic(auto)]

mod compiler;
mod gather;
mod run;

pub use run::{RunEnd, run_sessions};
