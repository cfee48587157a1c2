//! The four rules on the boundary of an area: its closed loops, their usage and the way that they turn.
#![tactic(auto)]

mod area;
mod line;
mod part;
mod ring;
mod sums;
mod sweep;

pub use area::area_findings;
