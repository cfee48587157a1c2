//! Words that the checks of the rules share: names, numbers of 32 bits, the segments of an edge, areas of Group 1 and of
//! data coverage.
#![tactic(auto)]

mod area;
mod codes;
mod line;
mod list;
mod numbers;
mod record;

pub use area::{is_coverage_area, is_group1_area};
pub use codes::{AREA, BEGINNING_NODE, END_NODE};
pub use line::{Numbered, Segment, numbered, same_point, segments_of};
pub use list::the_only;
pub use numbers::number;
pub use record::{is_below, is_edge_name};
