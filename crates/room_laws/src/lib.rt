//! Laws of sessions in one editing history. Each is the contract of a function that does nothing.
#![tactic(auto)]

mod law;

pub use law::{
    a_history_has_the_report_of_its_order, a_session_goes_on, entries_are_a_run,
    entries_are_in_order, entries_tell_the_accepted_commits,
};
