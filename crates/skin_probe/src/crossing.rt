//! Crossings of the ray that runs from a point to the east.

ghost use Rattle.std.specs.Prelude.{◌≡◌};
ghost use Rattle.skin_probe.specs.Winding.{crosses_ray as way_crosses, crossing_of as crossing_at, is_east_of, is_passed as latitude_is_passed};

use check_words::Segment;
use geo_exact::{Point, orient};

/// Whether a latitude lies between that of `low`, which is one of them, and that of `high`, which isn't.
fn is_passed(y: i32, low: Point, high: Point) -> bool
    ensures { result ≡ latitude_is_passed y low high }
{
    low.0 <= y && y < high.0
}

/// Whether a way that rises passes east of a point: the point lies to the left of it.
fn passes_east(at: Point, low: Point, high: Point) -> bool
    ensures { result ≡ is_east_of at low high }
{
    orient(low, high, at) > 0
}

/// Whether the way from `low` up to `high` crosses the ray.
fn crosses_ray(at: Point, low: Point, high: Point) -> bool
    ensures { result ≡ way_crosses at low high }
{
    is_passed(at.0, low, high) && passes_east(at, low, high)
}

/// 1 for a segment that crosses the ray downwards, -1 for one that crosses it upwards, else 0.
pub(crate) fn crossing_of(at: Point, segment: Segment) -> i64
    ensures { result ≡ crossing_at at segment }
{
    if crosses_ray(at, segment.0, segment.1) {
        -1
    } else if crosses_ray(at, segment.1, segment.0) {
        1
    } else {
        0
    }
}
