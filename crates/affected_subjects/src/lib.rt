//! What edits reach: the keys that they touch, the tiles of the edited cell, and the subjects to be judged anew, without judging any.
#![tactic(auto)]

mod borne;
mod changes;
mod edited;
mod first;
mod law;
mod once;
mod reach;
mod second;

pub use reach::{Reach, affected_of, reach_of};
