//! What a chart cell answers to a key, with each look-up counted or without, and the points of an edge.
#![tactic(auto)]

mod answers;
mod counted;
mod edge;
mod groups;
mod key_places;
mod listed;
mod sorted;
mod starts;

pub use answers::Look;
pub use counted::distinct_by_keys;
pub use edge::{edge_line, edge_of, edge_points, node_at, points_between, position_of};
pub use groups::Groups;
pub use listed::records_of;
pub use look_counter::Steps;
pub use sorted::{ListLook, group_identities, group_pointers};
