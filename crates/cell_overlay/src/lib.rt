//! A cell with edits laid over it, and the keys that edits touch.
#![tactic(auto)]

mod head;
mod keys;
mod merged;
mod overlay;
mod threads;

pub use keys::touched;
pub use overlay::Overlay;
pub use threads::overlays_cross_threads;
