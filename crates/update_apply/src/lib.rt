//! Update files: the edits that an update file stands for, or the file's first fault.
#![tactic(auto)]

mod attributes;
mod case;
mod coded;
mod control;
mod coordinates;
mod earlier;
mod feature;
mod fields;
mod file;
mod given;
mod head;
mod record;
mod refusal;
mod rows;
mod tags;
mod target;
mod vector;

pub use file::update_edits;
pub use refusal::UpdateRefusal;
