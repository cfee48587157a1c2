//! A file read whole and a text put whole, over any file store and sink, and the real ones of both. The real disk of a journal.
#![tactic(auto)]

mod disk;
mod input;
mod journal;
mod output;
mod put;

pub use disk::DiskShelf;
pub use input::{InputRefusal, read_file};
pub use journal::FileDisk;
pub use output::StdSink;
pub use put::put_all;
