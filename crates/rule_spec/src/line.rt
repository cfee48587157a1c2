//! An edge as a line of points.

use s57_types::{Plane, RecName};

/// The line of an edge: its beginning node, its end node, and all points from the one to the other.
#[derive(Debug, Drop)]
pub struct EdgeLine {
    pub begins: RecName,
    pub ends: RecName,
    pub points: Plane,
}

/// A row of an area's boundary: the place of the spatial pointer from 1, its usage indicator (USAG), and the edge's
/// line in the pointer's direction.
#[derive(Debug)]
pub struct BoundaryRow {
    pub place: u32,
    pub usag: u8,
    pub line: EdgeLine,
}

impl Drop for BoundaryRow {
    fn drop(self) {
        let BoundaryRow {
            place: _,
            usag: _,
            line: _,
        } = self;
    }
}
