//! Boxes of segments, and the tiles that they cover.

ghost use Rattle.std.specs.Prelude.{◌≡◌};
ghost use Rattle.geometry_spec.specs.Boxes.{are_disjoint as are_boxes_disjoint, are_disjoint_ranges, box_of as box_around};
ghost use Rattle.geometry_spec.specs.Tiles.{tile_of as tile_at, tiles_of as tiles_under};

use geometry_spec::{Box4, Point, TileRange};

/// The side of a tile in coordinate units.
const TILE_SIDE: i32 = 65_536;

/// The least box along the axes that holds both points.
pub fn box_of(p: Point, q: Point) -> Box4
    ensures { result ≡ box_around p q }
{
    Box4 {
        south: p.0.min(q.0),
        west: p.1.min(q.1),
        north: p.0.max(q.0),
        east: p.1.max(q.1),
    }
}

/// Whether one box ends before the other begins, from south to north.
fn share_no_latitude(a: Box4, b: Box4) -> bool
    ensures { result ≡ are_disjoint_ranges a.south a.north b.south b.north }
{
    a.north < b.south || b.north < a.south
}

/// Whether one box ends before the other begins, from west to east.
fn share_no_longitude(a: Box4, b: Box4) -> bool
    ensures { result ≡ are_disjoint_ranges a.west a.east b.west b.east }
{
    a.east < b.west || b.east < a.west
}

/// Whether two boxes have no point in common. Boxes that share an edge or a corner have one.
pub fn are_disjoint(a: Box4, b: Box4) -> bool
    ensures { result ≡ are_boxes_disjoint a b }
{
    share_no_latitude(a, b) || share_no_longitude(a, b)
}

/// The row or column of the tile that a coordinate lies in.
fn tile_of(coordinate: i32) -> i32
    ensures { result ≡ tile_at coordinate }
{
    coordinate.div_euclid(TILE_SIDE)
}

/// The rows and columns of the tiles that a box covers.
pub fn tiles_of(b: Box4) -> TileRange
    ensures { result ≡ tiles_under b }
{
    TileRange {
        row_from: tile_of(b.south),
        row_to: tile_of(b.north),
        col_from: tile_of(b.west),
        col_to: tile_of(b.east),
    }
}
