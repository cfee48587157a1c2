//! The way that a loop turns.

ghost use Rattle.std.specs.Prelude.{◌≡◌, ◌≤◌, ◌^◌, unsigned_abs};
ghost use Rattle.geometry_spec.specs.Areas.{signed_double_area, twice_area_step as twice_area_step_of};

use geo_exact::{Point, twice_area_step};
use s57_types::Plane;

/// Twice the signed area that the step between two points sweeps, seen from the origin, in square coordinate units.
pub fn area_step(a: Point, b: Point) -> i128
    ensures value { result ≡ twice_area_step_of a b }
    ensures small { unsigned_abs result ≤ 2 ^ 63 }
{
    twice_area_step(a, b)
}

/// Twice the signed area of the closed list of points, the last joined to the first, in square coordinate units:
/// negative where it runs clockwise.
pub fn turn_of(points: &Plane) -> i128
    ensures { result ≡ signed_double_area points.now }
{
    let points = points.as_slice();
    let [first, ..] = points else { return 0 };
    let mut turn = 0;
    let mut before = *first;
    for point in points {
        turn += area_step(before, *point);
        before = *point;
    }
    turn + area_step(before, *first)
}
