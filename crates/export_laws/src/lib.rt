//! What is written after a run of scripts on the cell of a file is read as the cell that the run leaves.
#![tactic(auto)]

mod law;

pub use law::{decoded_cell_has_its_types, exports_are_read_back, scripts_have_their_types};
