//! The definitions of scripts, orders, editing history and reports, evaluated on small cells.
#![tactic(auto)]

mod law;

pub use law::{lines_are_spelled, orders_are_judged, replies_are_told, runs_are_reported};
