//! The outside of the program: a file store, an output sink and a rendezvous hook for tests, each as a trait whose
//! contract says when a call may fail and what it leaves, with stand-ins in memory.
#![tactic(auto)]

mod calls;
mod meet;
mod mem_shelf;
mod mem_sink;
mod shelf;
mod sink;
mod sure_shelf;
mod sure_sink;

pub use meet::{Meet, NoMeet, Stuck};
pub use mem_shelf::MemShelf;
pub use mem_sink::MemSink;
pub use shelf::{Failed, Got, Shelf};
pub use sink::Sink;
pub use sure_shelf::SureShelf;
pub use sure_sink::SureSink;
