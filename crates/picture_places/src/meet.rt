//! The common point of two segments on the page, rounded.

ghost use Rattle.std.specs.Prelude.{◌≡◌, ◌<◌, ◌≤◌, ◌+◌, ◌+ℤ◌, ◌^◌, ◌∷◌, [], ◌++◌, OnOk, unsigned_abs};
ghost use Rattle.geometry_spec.specs.Areas.{signed_double_area as spec_signed_double_area};
ghost use Rattle.picture_places.specs.Places.{common_dots, common_point as spec_common_point, double_area as spec_double_area};
ghost use Rattle.picture_places.specs.Places.{point_between as spec_point_between, shared_end as spec_shared_end, weighed as spec_weighed};

use crate::page::{PagePoint, page_point};
use crate::stroke::{Stroke, Strokes};
use geo_exact::on_segment;
use geometry_spec::{Box4, Point};
use ring_build::area_step;
use std::alloc::{AllocError, Global};

/// A sum of steps.
fn plus(a: i128, b: i128) -> i128
    requires small_a { unsigned_abs a ≤ 2 ^ 64 }
    requires small_b { unsigned_abs b ≤ 2 ^ 64 }
    ensures value { result ≡ a +ℤ b }
    ensures small { unsigned_abs result ≤ unsigned_abs a + unsigned_abs b }
{
    a + b
}

/// Three steps round a triangle: twice its signed area, in square coordinate units.
fn signed_double_area(a: Point, b: Point, c: Point) -> i128
    ensures value { result ≡ spec_signed_double_area (a ∷ b ∷ c ∷ []) }
    ensures small { unsigned_abs result ≤ 2 ^ 65 }
{
    plus(plus(area_step(a, b), area_step(b, c)), area_step(c, a))
}

/// Twice the area of a triangle, in square coordinate units.
fn double_area(a: Point, b: Point, c: Point) -> u128
    ensures value { result ≡ spec_double_area a b c }
    ensures small { result ≤ 2 ^ 65 }
{
    signed_double_area(a, b, c).unsigned_abs()
}

/// Between two numbers, by their weights.
#[tactic(auto, using(crate::proofs::Weights::product_small, crate::proofs::Weights::mean_small))]
fn weighed(a: u32, b: u32, to_a: u128, to_b: u128) -> u32
    requires some { 0 < to_a + to_b }
    requires small_a { to_a ≤ 2 ^ 65 }
    requires small_b { to_b ≤ 2 ^ 65 }
    ensures { result ≡ spec_weighed a b to_a to_b }
{
    ((u128::from(a) * to_a + u128::from(b) * to_b) / (to_a + to_b)) as u32
}

fn point_between(p: PagePoint, q: PagePoint, to_p: u128, to_q: u128) -> PagePoint
    requires some { 0 < to_p + to_q }
    requires small_p { to_p ≤ 2 ^ 65 }
    requires small_q { to_q ≤ 2 ^ 65 }
    ensures { result ≡ spec_point_between p q to_p to_q }
{
    PagePoint {
        x: weighed(p.x, q.x, to_p, to_q),
        y: weighed(p.y, q.y, to_p, to_q),
    }
}

/// Of two segments on one line, the first end that lies on both.
fn shared_end(p: Point, q: Point, r: Point, s: Point) -> Point
    ensures { result ≡ spec_shared_end p q r s }
{
    if on_segment(p, r, s) {
        return p;
    }
    if on_segment(q, r, s) {
        return q;
    }
    r
}

/// The common point of the segments from `p` to `q` and from `r` to `s`, which have one.
fn common_point(around: Box4, p: Point, q: Point, r: Point, s: Point) -> PagePoint
    ensures { result ≡ spec_common_point around p q r s }
{
    let from_p = double_area(r, s, p);
    let from_q = double_area(r, s, q);
    if from_p + from_q == 0 {
        return page_point(around, shared_end(p, q, r, s));
    }
    point_between(page_point(around, p), page_point(around, q), from_q, from_p)
}

/// Appends a dot at the common point of two segments, each given as its two ends.
pub fn push_common_dot(
    alloc: Global,
    strokes: &mut Strokes,
    around: Box4,
    first: &[Point],
    second: &[Point],
) -> Result<(), AllocError>
    ensures { OnOk result (strokes.new ≡ strokes.old ++ common_dots around first.now second.now) }
{
    if first.len() != 2 || second.len() != 2 {
        return Ok(());
    }
    let at = common_point(around, first[0], first[1], second[0], second[1]);
    let mut dot = Vec::new(alloc);
    dot.push(at)?;
    strokes.push(Stroke::of_vec(dot))
}
