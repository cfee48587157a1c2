//! The dependency index: of each record, side and identifier the keys that it reads, and of each key those that read it.
#![tactic(auto)]

mod change;
mod distance;
mod law;
mod map;
mod readers;
mod set;
mod threads;

pub use change::ReadChange;
pub use law::changes_set_their_subjects;
pub use map::{DependMap, ReadPlan};
pub use readers::Readers;
pub use threads::maps_cross_threads;
