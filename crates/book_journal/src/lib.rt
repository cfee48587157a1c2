//! A journal of accepted commits on a disk: what a crash at any moment leaves of it is a beginning of the list of accepted commits that has
//! each one that was acknowledged.
#![tactic(auto)]

mod entry;
mod journal;
mod law;
mod open;
mod reading;
mod refusal;
mod replay;
mod reply;
mod text;
mod writing;

pub use journal::Journal;
pub use law::a_journal_has_one_reading;
pub use open::open_book;
pub use refusal::{KeepRefusal, OpenRefusal};
