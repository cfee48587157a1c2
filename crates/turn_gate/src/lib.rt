//! A ticket lock round a value with an append-only history: its handles know how the history grew.
#![tactic(auto)]

mod chronicle;
mod handle;
mod lock;
mod operation;
mod outcomes;
mod steps;
mod threads;
mod view;

pub use chronicle::Chronicle;
pub use handle::GateSeat;
pub use lock::{Gate, MakeRefusal};
pub use operation::Deed;
pub use threads::{handles_are_shared, locks_cross_threads};
