//! Laws of the cells that files stand for.
#![tactic(auto)]

mod law;

pub use law::decoded_cell_is_writable;
