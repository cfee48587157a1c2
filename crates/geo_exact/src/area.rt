//! The signed area of closed lists of points.

ghost use Rattle.std.specs.Prelude.{◌≡◌};
ghost use Rattle.geometry_spec.specs.Areas.{twice_area_step as twice_area_step_of};

use crate::side::{difference, product};
use geometry_spec::Point;

/// Twice the signed area between the origin, `a` and `b`, in square coordinate units. The sum of the steps round a closed list
/// of points is twice the area that it encloses, negative where the list runs clockwise.
pub fn twice_area_step(a: Point, b: Point) -> i128
    ensures { result ≡ twice_area_step_of a b }
{
    difference(
        product(i64::from(a.1), i64::from(b.0)),
        product(i64::from(a.0), i64::from(b.1)),
    )
}
