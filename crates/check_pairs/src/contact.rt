//! The first illegal contact of two lines.

ghost use Rattle.std.specs.Prelude.{◌≡◌, Some, find, map, option_to_list};
ghost use Rattle.rule_spec.specs.Vectors.{each_with_each, meeting_of_segments as spec_meeting};
ghost use Rattle.rule_spec.specs.Contacts.{is_on as spec_is_on, meet_at_one_of as spec_meet_at, is_illegal as spec_illegal};
ghost use Rattle.rule_spec.specs.Contacts.{have_illegal_contact as spec_have_illegal};
ghost use Rattle.line_boxes.specs.LineBoxes.{line_box};
ghost use Rattle.check_pairs.specs.SharedPlaces.{is_end_of as spec_is_end_of, place_if, shared_places as spec_shared_places};
ghost use Rattle.check_pairs.specs.SharedPlaces.{first_contact as spec_first_contact};

use crate::line::SegmentedLine;
use check_words::{Numbered, Segment};
use geo_exact::{meeting, on_segment};
use geometry_spec::{Box4, MeetCase, Point};
use line_boxes::{are_disjoint, box_of_segment};
use near_records::LineEnd;
use s57_types::RecName;

/// Whether a point lies on a segment.
pub(crate) fn is_on(s: Segment, w: Point) -> bool
    ensures { result ≡ spec_is_on s w }
{
    on_segment(w, s.0, s.1)
}

fn meet_at_one_of(places: &[Point], s: Segment, t: Segment) -> bool
    ensures { result ≡ spec_meet_at places.now s t }
{
    for w in places {
        if is_on(s, *w) && is_on(t, *w) {
            return true;
        }
    }
    false
}

/// What two segments have in common.
pub(crate) fn meeting_of_segments(s: Segment, t: Segment) -> MeetCase
    ensures { result ≡ spec_meeting s t }
{
    meeting(s.0, s.1, t.0, t.1)
}

fn is_illegal(places: &[Point], s: Segment, t: Segment, case: MeetCase) -> bool
    ensures { result ≡ spec_illegal places.now s t case }
{
    match case {
        MeetCase::Apart => false,
        MeetCase::At => !meet_at_one_of(places, s, t),
        MeetCase::Along => true,
    }
}

fn have_illegal_contact(places: &[Point], a: Numbered, b: Numbered) -> bool
    ensures { result ≡ spec_have_illegal places.now (a, b) }
{
    is_illegal(places, a.1, b.1, meeting_of_segments(a.1, b.1))
}

/// The first segment of a line with which one segment has an illegal contact. Two segments whose boxes are disjoint
/// are apart, so that their contact is looked at no further.
fn first_contact_among(
    places: &[Point],
    a: Numbered,
    line: &[Numbered],
) -> Option<(Numbered, Numbered)>
    ensures { result ≡ find (spec_have_illegal places.now) (map (λ b. (a, b)) line.now) }
{
    for b in line {
        if have_illegal_contact(places, a, *b) {
            return Some((a, *b));
        }
    }
    None
}

/// The same, where the line lies in a box. A segment whose box is disjoint from that has no contact with the line.
fn first_contact_within(
    places: &[Point],
    a: Numbered,
    line: &[Numbered],
    around: Box4,
) -> Option<(Numbered, Numbered)>
    requires { line_box line.now ≡ Some around }
    ensures { result ≡ find (spec_have_illegal places.now) (map (λ b. (a, b)) line.now) }
{
    if are_disjoint(box_of_segment(a), around) {
        return None;
    }
    first_contact_among(places, a, line)
}

fn first_contact_by_rows(
    places: &[Point],
    first: &[Numbered],
    second: &[Numbered],
    around: Box4,
) -> Option<(Numbered, Numbered)>
    requires { line_box second.now ≡ Some around }
    ensures { result ≡ find (spec_have_illegal places.now) (each_with_each first.now second.now) }
{
    for a in first {
        if let Some(pair) = first_contact_within(places, *a, second, around) {
            return Some(pair);
        }
    }
    None
}

/// The first illegal contact of two lines that may meet at these places. Lines whose boxes are disjoint have none.
fn first_contact_at(
    places: &[Point],
    first: &SegmentedLine,
    second: &SegmentedLine,
) -> Option<(Numbered, Numbered)>
    ensures { result ≡ spec_first_contact places.now first.now second.now }
{
    let Some(first_box) = first.around() else {
        return None;
    };
    let Some(second_box) = second.around() else {
        return None;
    };
    if are_disjoint(first_box, second_box) {
        return None;
    }
    first_contact_by_rows(places, first.segments(), second.segments(), second_box)
}

fn is_end_of(line: &SegmentedLine, name: RecName) -> bool
    ensures { result ≡ spec_is_end_of line.now name }
{
    name == line.begins().node || name == line.ends().node
}

/// The place of a node at an end of a line, if another line begins or ends at that node too.
fn shared_place(end: LineEnd, other: &SegmentedLine) -> Option<Point>
    ensures { option_to_list result ≡ place_if (spec_is_end_of other.now end.node) (Some end.at) }
{
    if is_end_of(other, end.node) {
        return Some(end.at);
    }
    None
}

/// The first illegal contact of two lines: the least two segments by the number on the first line, then on the second.
/// They may meet at the places of nodes that both name.
pub(crate) fn first_contact(
    first: &SegmentedLine,
    second: &SegmentedLine,
) -> Option<(Numbered, Numbered)>
    ensures { result ≡ spec_first_contact (spec_shared_places first.now second.now) first.now second.now }
{
    let begins = shared_place(first.begins(), second);
    let ends = shared_place(first.ends(), second);
    match (begins, ends) {
        (Some(p), Some(q)) => first_contact_at(&[p, q], first, second),
        (Some(p), None) => first_contact_at(&[p], first, second),
        (None, Some(q)) => first_contact_at(&[q], first, second),
        (None, None) => first_contact_at(&[], first, second),
    }
}
