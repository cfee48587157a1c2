//! The counter of look-ups, and its maker.
//!
//! Only a crate that lists this one in crates.txt can make a counter: what is lent a counter and lists it not counts in that one alone.
#![tactic(auto)]

mod counter;

pub use counter::{Steps, start_counter};
