//! Cells as files of ISO/IEC 8211 records (S-57 Part 3).
#![tactic(auto)]

mod cell;
mod description;
mod feature;
mod head;
mod number;
mod spare;
mod vector;

pub use cell::write_cell;
