//! A session over a journal: the program's call whose accepted commits are kept on a disk.
#![tactic(auto)]

mod ask;
mod keep;
mod report;
mod serve;
mod session;
mod top;

pub use top::run_keep;
