//! A picture of a chart cell and its findings: where each finding is, as an SVG document.
#![tactic(auto)]

mod escape;
mod frame;
mod law;
mod picture;
mod shape;
mod text;

pub use law::{each_is_drawn_once, escapes_leave_no_markup};
pub use picture::push_picture;
