//! The findings of a chart cell and their text.
#![tactic(auto)]

mod block;
mod each;
mod findings;
mod found_parts;
mod gather;
mod list;
mod names;
mod pairing;
mod part;
mod part_window;
mod refusal;
mod search;
mod single;
mod text;
mod threads;
mod tiles;

pub use each::each_in_threads;
pub use findings::find_all;
pub use list::{Findings, SubjectFinding};
pub use names::names_in;
pub use refusal::LoadRefusal;
pub use text::{
    RecordCounts, push_cell, push_count, push_end, push_findings, push_findings_about, push_heading,
};
pub use threads::find_all_in_threads;
pub use tiles::tiles_of;
