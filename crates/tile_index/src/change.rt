//! A change of where a node or an edge lies.

use s57_types::{Plane, RecName};

/// The points of a connected node or an edge from now on, latitude first, in integer coordinate units. `None` takes it out. A connected
/// node lies somewhere where it has exactly one point, an edge where it has two or more, and no other record does.
#[derive(Debug, Drop)]
pub struct TileChange {
    pub name: RecName,
    pub points: Option<Plane>,
}
