//! What points, segments, boxes, tiles and areas are: types and definitions that the contracts of other crates cite.
#![tactic(auto)]

mod law;
mod segment;
mod tile;

pub use law::{
    clockwise_is_negative, disjoint_boxes_are_apart, signs_decide_lying_on, signs_decide_meeting,
    tiles_are_floors,
};
pub use segment::{MeetCase, Point};
pub use tile::{Box4, TileRange};
