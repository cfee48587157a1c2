//! What several threads judge: the whole cell of a bench that is loaded, and before a turn at the log is asked for the rows of what edits can
//! change.
#![tactic(auto)]

mod judging;
mod known;
mod loading;
mod pairs;
mod parts;
mod preparing;

pub use loading::load;
pub use preparing::prepare;
