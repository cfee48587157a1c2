//! A table of rows in ascending order of their keys, which takes all memory for new rows beforehand.
#![tactic(auto)]

mod blocks;
mod laws;
mod run;
mod table;

pub use laws::{copies_are_same, keys_find_their_rows};
pub use run::is_ascending;
pub use table::RowTable;
