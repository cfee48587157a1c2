//! Whether a point lies on a segment, and what two segments have in common.

ghost use Rattle.std.specs.Prelude.{◌≡◌, ◌↔◌, IsTrue, ◌&&◌, pos};
ghost use Rattle.std.specs.Ordering.{int_eq, is_le};
ghost use Rattle.geometry_spec.specs.Points.{point_cmp};
ghost use Rattle.geometry_spec.specs.Segments.{LiesOn, SegmentMeeting};
ghost use Rattle.geometry_spec.specs.Signs.{are_zero, have_one_sign, lies_on, meeting_of, meeting_on_line};

use crate::side::orient;
use crate::tiling::{are_disjoint, box_of};
use geometry_spec::{MeetCase, Point};
use std::cmp::Ordering;

/// Whether points on these sides lie strictly on one side of the line.
fn are_one_side(a: i8, b: i8) -> bool
    ensures { result ≡ have_one_sign a b }
{
    (0 < a && 0 < b) || (a < 0 && b < 0)
}

/// Whether a point on this side lies on the line.
fn is_on_line(side: i8) -> bool
    ensures { result ≡ int_eq side (pos 0) }
{
    side == 0
}

/// Whether points on these sides lie on the line.
fn are_on_line(a: i8, b: i8) -> bool
    ensures { result ≡ are_zero a b }
{
    a == 0 && b == 0
}

/// Whether `w` is neither before `from` nor after `to` in the order of points.
fn is_between(w: Point, from: Point, to: Point) -> bool
    ensures { result ≡ (is_le (point_cmp from w) && is_le (point_cmp w to)) }
{
    from <= w && w <= to
}

/// Whether `w` lies on the closed segment from `p` to `q`.
pub fn on_segment(w: Point, p: Point, q: Point) -> bool
    ensures computed { result ≡ lies_on w p q }
    ensures exact { IsTrue result ↔ LiesOn w p q }
{
    let on_line = is_on_line(orient(p, q, w));
    let between = is_between(w, p.min(q), p.max(q));
    on_line && between
}

/// What two segments on one line have in common lies from the later of their first ends to the earlier of their last ends.
fn meeting_along_line(p: Point, q: Point, r: Point, s: Point) -> MeetCase
    ensures { result ≡ meeting_on_line p q r s }
{
    let from = p.min(q).max(r.min(s));
    let to = p.max(q).min(r.max(s));
    match from.cmp(&to) {
        Ordering::Less => MeetCase::Along,
        Ordering::Equal => MeetCase::At,
        Ordering::Greater => MeetCase::Apart,
    }
}

/// What two segments have in common, by the sides of each one's line on which the ends of the other lie.
fn meeting_by_sides(p: Point, q: Point, r: Point, s: Point) -> MeetCase
    ensures { result ≡ meeting_of p q r s }
{
    let r_side = orient(p, q, r);
    let s_side = orient(p, q, s);
    if are_one_side(r_side, s_side) {
        return MeetCase::Apart;
    }
    let p_side = orient(r, s, p);
    let q_side = orient(r, s, q);
    if are_one_side(p_side, q_side) {
        return MeetCase::Apart;
    }
    if are_on_line(r_side, s_side) {
        return meeting_along_line(p, q, r, s);
    }
    MeetCase::At
}

/// What the closed segments from `p` to `q` and from `r` to `s` have in common: no point, exactly one, or more.
pub fn meeting(p: Point, q: Point, r: Point, s: Point) -> MeetCase
    ensures computed { result ≡ meeting_of p q r s }
    ensures exact { SegmentMeeting p q r s result }
{
    if are_disjoint(box_of(p, q), box_of(r, s)) {
        return MeetCase::Apart;
    }
    meeting_by_sides(p, q, r, s)
}
