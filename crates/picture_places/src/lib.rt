//! Where the records of a chart cell and its findings stand on a page.
#![tactic(auto)]

mod area;
mod extent;
mod hold;
mod label;
mod law;
mod meet;
mod page;
mod place;
mod stroke;
mod view;

pub use extent::extent_of;
pub use hold::Held;
pub use label::{anchor_of, field_of, free_field, label_point};
pub use law::north_is_up;
pub use page::{PAGE_LEFT, PAGE_WIDTH, PagePoint};
pub use stroke::{Stroke, Strokes};
pub use view::View;
