//! Boxes around the segments of a line.
//!
//! A box is a range of latitudes and a range of longitudes in integer coordinate units: its south, west, north and east
//! side, each of which belongs to it.
#![tactic(auto)]

mod boxes;

pub use boxes::{box_of_line, box_of_segment, united};
pub use geo_exact::are_disjoint;
