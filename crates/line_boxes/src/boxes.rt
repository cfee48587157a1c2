//! Boxes of segments.

ghost use Rattle.std.specs.Prelude.{◌≡◌};
ghost use Rattle.line_boxes.specs.LineBoxes.{box_of_segment as spec_box_of_segment, box_with, line_box, united as spec_united};

use check_words::Numbered;
use geo_exact::box_of;
use geometry_spec::Box4;

/// The least box that holds two boxes.
pub fn united(a: Box4, b: Box4) -> Box4
    ensures { result ≡ spec_united a b }
{
    Box4 {
        south: a.south.min(b.south),
        west: a.west.min(b.west),
        north: a.north.max(b.north),
        east: a.east.max(b.east),
    }
}

/// The least box that holds both ends of a segment, which are latitude and longitude in integer coordinate units. The
/// segment's number doesn't matter.
pub fn box_of_segment(segment: Numbered) -> Box4
    ensures { result ≡ spec_box_of_segment segment }
{
    box_of(segment.1.0, segment.1.1)
}

/// The least box that holds a box and the boxes of segments.
fn box_around(start: Box4, segments: &[Numbered]) -> Box4
    ensures { result ≡ box_with start segments.now }
{
    let mut around = start;
    for segment in segments {
        around = united(around, box_of_segment(*segment));
    }
    around
}

/// The least box that holds the segments of a line. A line without segments has none.
pub fn box_of_line(segments: &[Numbered]) -> Option<Box4>
    ensures { result ≡ line_box segments.now }
{
    match segments {
        [first, ..] => Some(box_around(box_of_segment(*first), segments)),
        [] => None,
    }
}
