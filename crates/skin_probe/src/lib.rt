//! How often the areas of Group 1 and those of the coverage go round a point.
#![tactic(auto)]

mod area;
mod balance;
mod crossing;
mod law;
mod point;
mod sheet;
mod text;
mod winding;

pub use law::{balanced_sides_equal_winding, winding_sum_by_edges};
pub use point::probe;
pub use sheet::{ProbeSheet, Winds};
pub use text::push_sheet;
pub use winding::wind;
