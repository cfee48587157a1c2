//! What a cell answers to keys after edits, from what it answered before, and what edits make of the cell.
#![tactic(auto)]

mod law;

pub use law::{
    counts_after_edits, edited_answers, edited_answers_are_local, edited_cells_are_readable,
    edits_add_up, edits_keep_a_cell_writable, formed_edits_find_their_records,
    untouched_keys_keep_answers,
};
