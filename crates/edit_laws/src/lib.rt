//! Runs of scripts leave a writable cell, and what is written of it is read back.
#![tactic(auto)]

mod law;

pub use law::{
    edits_keep_the_types_of_a_cell, refusals_tell_what_a_cell_takes, runs_are_read_back,
    runs_leave_a_writable_cell, taken_edits_have_lines,
};
