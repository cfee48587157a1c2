//! The reader of cell files: the cell that a file stands for, or the file's first fault.
#![tactic(auto)]

mod fields;
mod file;
mod heads;
mod names;
mod reading;
mod records;
mod refusal;
mod tags;
mod threads;
mod values;

pub use file::read_cell;
pub use refusal::{ReadRefusal, fault_of_frame};
pub use tags::{record_type, stands_before, stands_twice, tag_in, tag_text};
pub use threads::read_cell_in_threads;
