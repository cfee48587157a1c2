//! Winding numbers counted by the ray that runs from a point to the north.

use geo_exact::{Point, on_segment};

/// A segment, with the points that the line has after each other.
type Segment = (Point, Point);

/// A product of small differences of coordinates.
fn product(from: i32, to: i32, other_from: i32, other_to: i32) -> i64 {
    let first = i64::from(to) - i64::from(from);
    let second = i64::from(other_to) - i64::from(other_from);
    first.wrapping_mul(second)
}

/// Whether the way from `west` eastwards to `east` has the point's longitude north of it.
fn passes_north(at: Point, west: Point, east: Point) -> bool {
    let across = product(west.1, east.1, west.0, at.0);
    let up = product(west.1, at.1, west.0, east.0);
    west.1 <= at.1 && at.1 < east.1 && up > across
}

/// How often a closed line goes round a point clockwise, where the point isn't on it: a clockwise line passes eastwards north of a point within.
pub(crate) fn winding(at: Point, segments: &[Segment]) -> i64 {
    let mut winding = 0i64;
    for (from, to) in segments {
        if passes_north(at, *from, *to) {
            winding = winding.wrapping_add(1);
        }
        if passes_north(at, *to, *from) {
            winding = winding.wrapping_sub(1);
        }
    }
    winding
}

/// Whether a point lies on a line.
pub(crate) fn is_on(at: Point, segments: &[Segment]) -> bool {
    for (from, to) in segments {
        if on_segment(at, *from, *to) {
            return true;
        }
    }
    false
}
