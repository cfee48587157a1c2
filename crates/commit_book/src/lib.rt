//! The log of the editing history of a cell: what each desk asked, with its answer, and the bench and the accepted commits that these leave.
#![tactic(auto)]

mod accepted;
mod book;
mod commit_places;
mod enter;
mod names;
mod newer;
mod refusal;
mod stale;
mod told;

pub use accepted::Accepted;
pub use book::Book;
pub use cell_bench::{Bench, LoadRefusal, Prepared};
pub use history_spec::{Asked, Brief, Entry, Reply, StateRefusal};
pub use refusal::BookRefusal;
pub use told::{Answered, EditSets, Told};
