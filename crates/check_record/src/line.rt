//! The line of an edge: points that are stacked.

ghost use Rattle.std.specs.Prelude.{◌≡◌, ◌++◌, ◌∷◌, [], IfOk, List, OnOk, map, true};
ghost use Rattle.std.specs.List.{All};
ghost use Rattle.std.specs.Option.{option_copied, option_map_or};
ghost use Rattle.s57_types.specs.declared.cell.Cell.{Cell as SpecCell};
ghost use Rattle.s57_types.specs.declared.record.End.{End as SpecEnd};
ghost use Rattle.cell_spec.specs.declared.key.Key.{Key as SpecKey};
ghost use Rattle.cell_spec.specs.declared.key.Key.TheVariants.{Name as KeyName};
ghost use Rattle.near_records.specs.LineEnds.{line_from as spec_line_from};
ghost use Rattle.near_records.specs.Near.{has_key};
ghost use Rattle.rule_spec.specs.declared.kind.TheConstants.{SELF_MEET, STACKED};
ghost use Rattle.rule_spec.specs.declared.line.EdgeLine.{EdgeLine as SpecLine};
ghost use Rattle.rule_spec.specs.EdgePoints.{line_of as spec_line_of};
ghost use Rattle.rule_spec.specs.Findings.{finding};
ghost use Rattle.rule_spec.specs.Rule.{found_at};
ghost use Rattle.rule_spec.specs.Vectors.{stacked_segment as spec_stacked_segment, self_meet_of};

use crate::self_meet::push_self_meet;
use cell_spec::Finding;
use chain_topo::points_between;
use check_words::{BEGINNING_NODE, END_NODE, number, same_point};
use geometry_spec::Point;
use near_records::{LineEnd, Near, line_end};
use rule_spec::{EdgeLine, STACKED};
use s57_types::{Items, Vector};
use std::alloc::{AllocError, Global};

/// The line from one node along points to another.
fn line_between(
    alloc: Global,
    begins: LineEnd,
    points: &[Point],
    ends: LineEnd,
) -> Result<EdgeLine, AllocError>
    ensures { IfOk result (λ line. line ≡ spec_line_from begins points.now ends) }
{
    let points = points_between(alloc, begins.at, points, ends.at)?;
    Ok(EdgeLine {
        begins: begins.node,
        ends: ends.node,
        points: Items::of_vec(points),
    })
}

/// The line of an edge, if it has one, where what its ends name is near.
pub(crate) fn line_of<N: Near>(
    alloc: Global,
    near: &N,
    edge: &Vector,
) -> Result<Option<EdgeLine>, AllocError>
    ensures { (c : SpecCell) (keys : List SpecKey) → N.tells near.now c keys → All (λ (e : SpecEnd). has_key keys (KeyName e.to) ≡ true) edge.now.ends
        → IfOk result (λ line. line ≡ spec_line_of c edge.now) }
{
    let begins = line_end(near, BEGINNING_NODE, edge);
    let ends = line_end(near, END_NODE, edge);
    match (begins, ends) {
        (Some(begins), Some(ends)) => {
            let line = line_between(alloc, begins, edge.plane.as_slice(), ends)?;
            Ok(Some(line))
        }
        _ => Ok(None),
    }
}

/// The number of the first segment whose two points are one.
fn stacked_segment(points: &[Point]) -> Option<usize>
    ensures { result ≡ spec_stacked_segment points.now }
{
    let [first, rest @ ..] = points else {
        return None;
    };
    let mut before = *first;
    for (k, point) in rest.iter().enumerate() {
        if same_point(before, *point) {
            return Some(k + 1);
        }
        before = *point;
    }
    None
}

/// Stacked: appends its finding about a segment.
fn push_stacked(findings: &mut Vec<Finding>, segment: usize) -> Result<(), AllocError>
    ensures { OnOk result (findings.new.items ≡ findings.old.items ++ finding STACKED (segment ∷ []) ∷ []) }
{
    let segment = number(segment)?;
    findings.push(Finding {
        kind: STACKED,
        nums: [segment, 0, 0, 0],
    })?;
    Ok(())
}

/// Stacked and SelfMeet: appends their findings about the points of an edge. Where points are stacked, nothing is said of segments that meet.
fn push_point_findings(
    alloc: Global,
    findings: &mut Vec<Finding>,
    points: &[Point],
) -> Result<(), AllocError>
    ensures { OnOk result (findings.new.items ≡ findings.old.items ++ (map (finding STACKED) (found_at (spec_stacked_segment points.now))
        ++ map (finding SELF_MEET) (self_meet_of points.now))) }
{
    match stacked_segment(points) {
        Some(segment) => push_stacked(findings, segment),
        None => push_self_meet(alloc, findings, points),
    }
}

/// Stacked and SelfMeet: appends their findings about the line of an edge, if it has one.
pub(crate) fn push_line_findings(
    alloc: Global,
    findings: &mut Vec<Finding>,
    line: Option<&EdgeLine>,
) -> Result<(), AllocError>
    ensures { OnOk result (findings.new.items ≡ findings.old.items
        ++ (map (finding STACKED) (option_map_or (λ (line : SpecLine). found_at (spec_stacked_segment line.points))
        (option_copied line.entry) []) ++ map (finding SELF_MEET)
        (option_map_or (λ (line : SpecLine). self_meet_of line.points) (option_copied line.entry) []))) }
{
    match line {
        Some(line) => push_point_findings(alloc, findings, line.points.as_slice()),
        None => Ok(()),
    }
}
