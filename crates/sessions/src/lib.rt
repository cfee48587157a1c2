//! Sessions: each does its script's commands one after the other, up to its next view or commit, and takes in the answer to that.
#![tactic(auto)]

mod draft;
mod editor;
mod local;
mod run;
mod session;

pub use run::{Replayed, SESSION_LIMIT, replay};
pub use session::{Session, Shared};
