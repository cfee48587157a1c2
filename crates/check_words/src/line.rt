//! The points and segments of an edge.

ghost use Rattle.std.specs.Prelude.{◌≡◌, IfOk};
ghost use Rattle.std.specs.List.{enumerate_from};
ghost use Rattle.rule_spec.specs.EdgePoints.{same_point as spec_same_point, segments_of as spec_segments};

use geometry_spec::Point;
use std::alloc::{AllocError, Global};

/// From a point to a point.
pub type Segment = (Point, Point);

/// A segment with its number from 1.
pub type Numbered = (usize, Segment);

/// Whether two points are one.
pub fn same_point(p: Point, q: Point) -> bool
    ensures { result ≡ spec_same_point p q }
{
    p.0 == q.0 && p.1 == q.1
}

/// The segments between neighbouring points. An `Err` means out of memory.
pub fn segments_of(alloc: Global, points: &[Point]) -> Result<Vec<Segment>, AllocError>
    ensures { IfOk result (λ segments. segments.items ≡ spec_segments points.now) }
{
    points
        .iter()
        .copied()
        .zip(points.iter().copied().skip(1))
        .collect(alloc)
}

/// Segments with their numbers from 1. An `Err` means out of memory.
pub fn numbered(alloc: Global, segments: &[Segment]) -> Result<Vec<Numbered>, AllocError>
    ensures { IfOk result (λ list. list.items ≡ enumerate_from 1 segments.now) }
{
    let mut list = Vec::new(alloc);
    for (k, segment) in segments.iter().enumerate() {
        list.push((k + 1, *segment))?;
    }
    Ok(list)
}
