//! The indexed store of a cell: its records by name and in file order, the pointers to a name, and the bearers of an identifier.
#![tactic(auto)]

mod answers;
mod file_lists;
mod load;
mod records;
mod store;
mod threads;
mod walk;

pub use store::{RecordStore, StorePlan};
pub use threads::stores_cross_threads;
pub use walk::Walk;
