//! The definitions of the rules, of read sets and of edited cells, evaluated on small cells.
#![tactic(auto)]

mod law;

pub use law::{
    boundaries_partition, changes_are_judged, codes_fit_the_table, samples_are_judged,
    tiles_decide_candidates,
};
