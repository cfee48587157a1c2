//! Sets of edits, each of which has a name of its own and leaves what can be written, with the names that guard them.
#![tactic(auto)]

mod edit_set;
mod fault;
mod form;
mod places;

pub use cell_spec::Edit;
pub use edit_set::EditSet;
pub use fault::{FormFault, FormRefusal};
