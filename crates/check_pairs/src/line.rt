//! The line of an edge with its segments.

ghost use Rattle.std.specs.Prelude.{◌≡◌, ◌-◌, ◌∷◌, ◌++◌, [], IfOk, Some, length};
ghost use Rattle.std.specs.List.{enumerate_from, slice_get};
ghost use Rattle.line_boxes.specs.LineBoxes.{line_box};
ghost use Rattle.near_records.specs.LineEnds.{line_from};
ghost use Rattle.rule_spec.specs.EdgePoints.{segments_of as spec_segments};
ghost use Rattle.check_pairs.specs.SegmentedLines.{listed};

use chain_topo::points_between;
use check_words::{Numbered, numbered, segments_of};
use geometry_spec::{Box4, Point};
use line_boxes::box_of_line;
use near_records::LineEnd;
use std::alloc::{AllocError, Global};
use std::marker::Model;

/// The segments of a line, numbered from 1. The one of a line without inner points takes no memory beside.
#[derive(Drop)]
pub(crate) enum Segments {
    One([Numbered; 1]),
    More(Vec<Numbered>),
}

/// The segments between neighbouring points of a line.
fn segments_between(
    alloc: Global,
    begins: Point,
    points: &[Point],
    ends: Point,
) -> Result<Segments, AllocError>
    ensures { IfOk result (λ segments. listed segments ≡ enumerate_from 1 (spec_segments (begins ∷ (points.now ++ ends ∷ [])))) }
{
    if points.is_empty() {
        return Ok(Segments::One([(1, (begins, ends))]));
    }
    let points = points_between(alloc, begins, points, ends)?;
    let segments = segments_of(alloc, &points)?;
    Ok(Segments::More(numbered(alloc, &segments)?))
}

impl Segments {
    fn as_slice(&self) -> &[Numbered]
        ensures { result.now ≡ listed self.now }
    {
        match self {
            Segments::One(segments) => segments,
            Segments::More(segments) => segments,
        }
    }
}

/// The line of an edge: its nodes with their places, its segments, and the box around them. Contracts see it as the line.
pub(crate) struct SegmentedLine {
    begins: LineEnd,
    ends: LineEnd,
    segments: Segments,
    around: Option<Box4>,
}

impl Drop for SegmentedLine {
    fn drop(self) {
        let SegmentedLine {
            begins: _,
            ends: _,
            segments: _,
            around: _,
        } = self;
    }
}

impl Model for SegmentedLine {
    ghost use Rattle.rule_spec.specs.declared.line.EdgeLine.{EdgeLine};
    ghost use Rattle.check_pairs.specs.SegmentedLines.{AreSegments, line_along, listed};

    ghost Value = { EdgeLine };

    ghost view = { λ l. line_along l.begins (listed l.segments) l.ends };

    ghost invariant = { λ l. AreSegments l.begins (listed l.segments) l.ends l.around };
}

impl SegmentedLine {
    /// The line from one node along points to another.
    pub(crate) fn between(
        alloc: Global,
        begins: LineEnd,
        points: &[Point],
        ends: LineEnd,
    ) -> Result<SegmentedLine, AllocError>
        ensures { IfOk result (λ line. line ≡ line_from begins points.now ends) }
    {
        let segments = segments_between(alloc, begins.at, points, ends.at)?;
        let around = box_of_line(segments.as_slice());
        Ok(SegmentedLine {
            begins,
            ends,
            segments,
            around,
        })
    }

    /// Its beginning node, at its first point.
    pub(crate) fn begins(&self) -> LineEnd
        ensures node { result.node ≡ self.now.begins }
        ensures at { slice_get self.now.points 0 ≡ Some result.at }
    {
        self.begins
    }

    /// Its end node, at its last point.
    pub(crate) fn ends(&self) -> LineEnd
        ensures node { result.node ≡ self.now.ends }
        ensures at { slice_get self.now.points (length self.now.points - 1) ≡ Some result.at }
    {
        self.ends
    }

    /// The segments, each with its number.
    pub(crate) fn segments(&self) -> &[Numbered]
        ensures { result.now ≡ enumerate_from 1 (spec_segments self.now.points) }
    {
        self.segments.as_slice()
    }

    /// The least box around the segments, if there are any.
    pub(crate) fn around(&self) -> Option<Box4>
        ensures { result ≡ line_box (enumerate_from 1 (spec_segments self.now.points)) }
    {
        self.around
    }
}
