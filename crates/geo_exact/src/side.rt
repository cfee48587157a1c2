//! On which side of a directed line a point lies.

ghost use Rattle.std.specs.Prelude.{◌≡◌, ◌≤◌, ◌^◌, ◌-ℤ◌, ◌*ℤ◌, unsigned_abs};
ghost use Rattle.std.specs.Int.{int_signum};
ghost use Rattle.geometry_spec.specs.Points.{orientation_of};

use geometry_spec::Point;

/// How far `to` is beyond `from`.
fn distance(from: i32, to: i32) -> i64
    ensures value { result ≡ to -ℤ from }
    ensures small { unsigned_abs result ≤ 2 ^ 32 }
{
    i64::from(to) - i64::from(from)
}

/// A product of two distances or coordinates.
pub(crate) fn product(a: i64, b: i64) -> i128
    requires a { unsigned_abs a ≤ 2 ^ 32 }
    requires b { unsigned_abs b ≤ 2 ^ 32 }
    ensures value { result ≡ a *ℤ b }
    ensures small { unsigned_abs result ≤ 2 ^ 64 }
{
    i128::from(a) * i128::from(b)
}

/// The difference of two products.
pub(crate) fn difference(a: i128, b: i128) -> i128
    requires a { unsigned_abs a ≤ 2 ^ 64 }
    requires b { unsigned_abs b ≤ 2 ^ 64 }
    ensures { result ≡ a -ℤ b }
{
    a - b
}

/// The orientation determinant.
fn determinant(a: Point, b: Point, c: Point) -> i128
    ensures { result ≡ orientation_of a b c }
{
    let leftward = product(distance(a.1, b.1), distance(a.0, c.0));
    let rightward = product(distance(a.0, b.0), distance(a.1, c.1));
    difference(leftward, rightward)
}

/// The sign of the orientation determinant: 1 where `c` lies to the left of the way from `a` to `b`, -1 where it lies to the
/// right, 0 where the three points lie on one line.
pub fn orient(a: Point, b: Point, c: Point) -> i8
    ensures { result ≡ int_signum (orientation_of a b c) }
{
    determinant(a, b, c).signum() as i8
}
