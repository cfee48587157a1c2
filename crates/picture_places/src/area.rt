//! The loops that fill an area.

ghost use Rattle.std.specs.Prelude.{◌≡◌, ◌++◌, ◌∷◌, [], IfOk, OnOk, flat_map, map};
ghost use Rattle.rule_spec.specs.Boundary.{line_along as spec_line_along};
ghost use Rattle.rule_spec.specs.Loops.{blocks_of};
ghost use Rattle.ring_build.specs.Partition.{length_of_block};
ghost use Rattle.picture_places.specs.Areas.{arc_of_line, area_strokes, boundary_lines, boundary_strokes, lines_at, loop_stroke, points_of_line};

use crate::stroke::Strokes;
use crate::view::View;
use chain_topo::{Steps, edge_line};
use check_words::number;
use geometry_spec::Point;
use ring_build::{Block, RingCut, block_length, cut, split_loop};
use rule_spec::EdgeLine;
use s57_types::{Feature, Plane, RecName, Spot};
use std::alloc::{AllocError, Global};
use std::sync::ledger::Ledger;

/// The orientation indicator ORNT of a pointer against its edge.
const REVERSE: u8 = 2;

/// A line as a spatial pointer goes along it.
fn line_along(ornt: u8, line: EdgeLine) -> EdgeLine
    ensures { result ≡ spec_line_along ornt line }
{
    if ornt != REVERSE {
        return line;
    }
    let mut points = line.points.into_vec();
    points.reverse();
    EdgeLine {
        begins: line.ends,
        ends: line.begins,
        points: Plane::of_vec(points),
    }
}

fn arcs_of(alloc: Global, lines: &[EdgeLine]) -> Result<Vec<(RecName, RecName)>, AllocError>
    ensures { IfOk result (λ arcs. arcs.items ≡ map arc_of_line lines.now) }
{
    lines
        .iter()
        .map(|line| (line.begins, line.ends))
        .collect(alloc)
}

/// Appends the points of lines.
fn push_points(points: &mut Vec<Point>, lines: &[EdgeLine]) -> Result<(), AllocError>
    ensures { OnOk result (points.new.items ≡ points.old.items ++ flat_map points_of_line lines.now) }
{
    for line in lines {
        points.extend_from_slice(line.points.as_slice())?;
    }
    Ok(())
}

impl<'a, 'b> View<'a, 'b> {
    /// Appends the line of the edge that a spatial pointer names, in the pointer's direction, if there is one.
    fn push_line<L: Ledger>(
        &self,
        lines: &mut Vec<EdgeLine>,
        spot: Spot,
        steps: &mut Steps<L>,
    ) -> Result<(), AllocError>
        ensures { OnOk result (lines.new.items ≡ lines.old.items ++ lines_at self.now.look.now spot) }
    {
        if let Some(line) = edge_line(self.alloc, self.look, spot.to, steps)? {
            lines.push(line_along(spot.ornt, line))?;
        }
        Ok(())
    }

    /// The lines of a boundary in the order of its spatial pointers.
    fn lines_of<L: Ledger>(
        &self,
        feature: &Feature,
        steps: &mut Steps<L>,
    ) -> Result<Vec<EdgeLine>, AllocError>
        ensures { IfOk result (λ lines. lines.items ≡ boundary_lines self.now.look.now feature.now) }
    {
        let mut lines = Vec::new(self.alloc);
        for spot in feature.places.as_slice() {
            self.push_line(&mut lines, *spot, steps)?;
        }
        Ok(lines)
    }

    /// Appends the stroke of a loop.
    fn push_loop(&self, strokes: &mut Strokes, lines: &[EdgeLine]) -> Result<(), AllocError>
        ensures { OnOk result (strokes.new ≡ strokes.old ++ loop_stroke self.now.around lines.now ∷ []) }
    {
        let mut points = Vec::new(self.alloc);
        push_points(&mut points, lines)?;
        self.push_stroke(strokes, &points)
    }

    /// Appends the strokes of loops one after the other.
    fn push_loops(
        &self,
        strokes: &mut Strokes,
        blocks: &[Block],
        lines: &[EdgeLine],
    ) -> Result<(), AllocError>
        ensures { OnOk result (strokes.new ≡ strokes.old
            ++ map (loop_stroke self.now.around) (blocks_of (map length_of_block blocks.now) lines.now)) }
    {
        let mut rest = lines;
        for block in blocks {
            let (front, after) = split_loop(rest, block_length(*block));
            rest = after;
            self.push_loop(strokes, front)?;
        }
        Ok(())
    }

    /// Appends the strokes of the loops of a boundary, if it is loops one after the other.
    fn push_boundary(&self, strokes: &mut Strokes, lines: &[EdgeLine]) -> Result<(), AllocError>
        ensures { OnOk result (strokes.new ≡ strokes.old ++ boundary_strokes self.now.around lines.now) }
    {
        let arcs = arcs_of(self.alloc, lines)?;
        let _count = number(arcs.len())?;
        match cut(self.alloc, &arcs)? {
            RingCut::Whole(blocks) => self.push_loops(strokes, blocks.as_slice(), lines),
            RingCut::OpenAt(_) => Ok(()),
        }
    }

    /// The strokes of an area's loops. An `Err` means out of memory.
    pub fn area_strokes_of<L: Ledger>(
        &self,
        feature: &Feature,
        steps: &mut Steps<L>,
    ) -> Result<Strokes, AllocError>
        ensures { IfOk result (λ strokes. strokes ≡ area_strokes self.now.look.now self.now.around feature.now) }
    {
        let lines = self.lines_of(feature, steps)?;
        let mut strokes = Strokes::make(self.alloc);
        self.push_boundary(&mut strokes, &lines)?;
        Ok(strokes)
    }
}
