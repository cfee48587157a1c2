//! Laws of runs of sessions: whose request is served when, what each answer tells, and what is left. Each is the contract of a function that does nothing.
#![tactic(auto)]

mod law;

pub use law::{
    answers_tell_their_cause, runs_leave_what_was_accepted, runs_take_their_course,
    sessions_are_served_in_order,
};
