//! Sets of pairs, of which the seconds of one first stand together.
#![tactic(auto)]

mod seconds;
mod set;
mod threads;

pub use seconds::Seconds;
pub use set::{PairRow, PairSet};
pub use threads::sets_cross_threads;
