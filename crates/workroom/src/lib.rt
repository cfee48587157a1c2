//! Desks of several compilers at one cell: each has a copy of the cell and asks the log of the editing history in turns.
#![tactic(auto)]

mod desk;
mod refusal;
mod room;
mod threads;
mod turn;

pub use commit_book::{Bench, Book, BookRefusal, Entry, LoadRefusal, Prepared, Reply};
pub use desk::Desk;
pub use refusal::{DeskRefusal, RoomRefusal};
pub use room::Workroom;
pub use threads::desks_cross_threads;
