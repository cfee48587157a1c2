//! Codes of the standard that several rules read.

/// The geometric primitive PRIM of an area (S-57 Part 3, 7.6.1).
pub const AREA: u8 = 3;

/// The topology indicators TOPI of an edge's beginning node and of its end node (S-57 Part 3, 7.7.1.4).
pub const BEGINNING_NODE: u8 = 1;

pub const END_NODE: u8 = 2;
