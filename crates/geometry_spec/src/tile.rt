//! Boxes along the axes, and the square tiles that they cover.

/// A box along the axes in integer coordinate units, its four sides included.
#[derive(Clone, Copy, Debug, PartialEq, Eq)]
pub struct Box4 {
    pub south: i32,
    pub west: i32,
    pub north: i32,
    pub east: i32,
}

/// The tiles of a box: their first and last row, counted northwards, and their first and last column, counted eastwards.
/// Tile 0 begins at coordinate 0.
#[derive(Clone, Copy, Debug, PartialEq, Eq)]
pub struct TileRange {
    pub row_from: i32,
    pub row_to: i32,
    pub col_from: i32,
    pub col_to: i32,
}
