//! The records of an electronic navigational chart cell (IHO S-57 edition 3.1, Part 3) as types.
#![tactic(auto)]

mod cell;
mod duplicate;
mod fault;
mod field;
mod head;
mod items;
mod name;
mod record;

pub use cell::Cell;
pub use duplicate::Duplicate;
pub use fault::{CellFault, Unfit};
pub use field::{Dsid, Dspm, Dssi, Frid, Vrid};
pub use head::{BoxedHead, Head, HeadEdit, Level};
pub use items::{Attrs, Deep, Ends, Items, Partners, Places, Plane, Recs, Text, cut_back};
pub use name::{Kind, Lnam, RecName};
pub use record::{Attr, End, Feature, Partner, Rec, Spot, Vector};
