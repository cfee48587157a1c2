//! Exact plane geometry on integer coordinates: sides, segments, boxes, tiles and areas. Nothing here takes memory or refuses.
#![tactic(auto)]

mod area;
mod contact;
mod side;
mod tiling;

pub use area::twice_area_step;
pub use contact::{meeting, on_segment};
pub use geometry_spec::{Box4, MeetCase, Point, TileRange};
pub use side::orient;
pub use tiling::{are_disjoint, box_of, tiles_of};
