//! What edits leave of a cell's findings, which subjects are to be judged anew, and when tables of findings, reads and tiles
//! are those of a cell. What isn't looked at hasn't changed, what is looked at is judged anew.
#![tactic(auto)]

mod change;
mod pair;
mod table;

pub use change::{
    affected_list_is_set, affected_subjects_are_considered, subjects_are_listed,
    unaffected_records_keep_segments, unaffected_singles_keep_reads,
    unaffected_subjects_keep_findings, valid_rows_stay_exact,
};
pub use pair::{apart_pairs_are_clean, found_pairs_are_candidates};
pub use table::{
    listed_tables_are_right, mates_are_candidates, readers_are_listed, verdict_tables_are_all,
};
