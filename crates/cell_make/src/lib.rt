//! Cells and scripts to try the program with: squares in rows and columns, and sessions that edit them.
#![tactic(auto)]

mod cell;
mod coverage;
mod law;
mod record;
mod script;

pub use cell::{make_cell, make_head};
pub use law::{one_square_is_made, records_are_numbered};
pub use record::{area, outer};
pub use script::make_scripts;
