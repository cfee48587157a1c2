//! Turns under the ticket lock, which threads take to sign with their numbers: what its tests look at, and what is timed.
#![tactic(auto)]

mod signatures;

pub use signatures::{Signed, signatures_of};
