//! The points of an edge.

ghost use Rattle.std.specs.Prelude.{◌≡◌, ◌≤◌, ◌+◌, ◌∷◌, ◌++◌, ◌==◌, [], IfOk, count_by, find, option_and_then, option_map};
ghost use Rattle.s57_types.specs.declared.name.Kind.TheVariants.{Vc};
ghost use Rattle.s57_types.specs.declared.record.End.{End as SpecEnd};
ghost use Rattle.s57_types.specs.declared.record.Vector.{Vector as SpecVector};
ghost use Rattle.cell_spec.specs.Names.{is_of_kind};
ghost use Rattle.std.specs.Option.{option_copied};
ghost use Rattle.rule_spec.specs.EdgePoints.{node_at as spec_node_at, node_position as spec_position, line_of as spec_line_of, edge_line_of, edge_points_of};
ghost use Rattle.rule_spec.specs.Records.{edge_named as spec_edge, is_edge_name, the_only as spec_the_only, vector_of};

use crate::answers::Look;
use check_words::{BEGINNING_NODE, END_NODE, the_only};
use geometry_spec::Point;
use look_counter::Steps;
use rule_spec::EdgeLine;
use s57_types::{End, Items, Kind, Plane, Rec, RecName, Vector};
use std::alloc::{AllocError, Global};
use std::sync::ledger::Ledger;

fn count_at(topi: u8, ends: &[End]) -> usize
    ensures { result ≡ count_by (λ (e : SpecEnd). e.topi == topi) ends.now }
{
    ends.iter().filter(|end| end.topi == topi).count()
}

fn first_at(topi: u8, ends: &[End]) -> Option<RecName>
    ensures { result ≡ option_map (λ (e : SpecEnd). e.to) (find (λ (e : SpecEnd). e.topi == topi) ends.now) }
{
    ends.iter().find(|end| end.topi == topi).map(|end| end.to)
}

/// The node that an edge names at its one end with a topology indicator TOPI (S-57 Part 3, 7.7.1.4): 1 for the beginning
/// node, 2 for the end node. There is none where no end has it, or more than one.
pub fn node_at(topi: u8, edge: &Vector) -> Option<RecName>
    ensures { result ≡ spec_node_at topi edge.now }
{
    let ends = edge.ends.as_slice();
    if count_at(topi, ends) != 1 {
        return None;
    }
    first_at(topi, ends)
}

/// The edge that a record is, if it is one.
pub fn edge_of(rec: &Rec) -> Option<&Vector>
    ensures { option_copied result ≡ vector_of is_edge_name rec.now }
{
    match rec {
        Rec::V(edge) if edge.name.kind == Kind::Ve => Some(edge),
        _ => None,
    }
}

/// The position of a record that is a connected node with exactly one: latitude first, in integer coordinate units.
pub fn position_of(rec: &Rec) -> Option<Point>
    ensures { result ≡ option_and_then (λ (node : SpecVector). spec_the_only node.plane) (vector_of (is_of_kind Vc) rec.now) }
{
    match rec {
        Rec::V(node) if node.name.kind == Kind::Vc => the_only(node.plane.as_slice()),
        _ => None,
    }
}

fn edge_named<'a, B: Look, L: Ledger>(
    look: &'a B,
    name: RecName,
    steps: &mut Steps<L>,
) -> Option<&'a Vector>
    ensures found { option_copied result ≡ spec_edge (B.cell look.now) name }
    ensures step { steps.new ≡ steps.old + 1 }
{
    edge_of(look.get(name, steps)?)
}

fn node_position<B: Look, L: Ledger>(look: &B, name: RecName, steps: &mut Steps<L>) -> Option<Point>
    ensures found { result ≡ spec_position (B.cell look.now) name }
    ensures step { steps.new ≡ steps.old + 1 }
{
    position_of(look.get(name, steps)?)
}

/// The points of a line from a point along more points to a point.
///
/// An `Err` means out of memory.
pub fn points_between(
    alloc: Global,
    first: Point,
    plane: &[Point],
    last: Point,
) -> Result<Vec<Point>, AllocError>
    ensures { IfOk result (λ points. points.items ≡ first ∷ (plane.now ++ last ∷ [])) }
{
    let mut points = Vec::with_capacity(alloc, plane.len() + 2)?;
    points.push(first)?;
    points.extend_from_slice(plane)?;
    points.push(last)?;
    Ok(points)
}

fn line_of<B: Look, L: Ledger>(
    alloc: Global,
    look: &B,
    edge: &Vector,
    steps: &mut Steps<L>,
) -> Result<Option<EdgeLine>, AllocError>
    ensures line { IfOk result (λ line. line ≡ spec_line_of (B.cell look.now) edge.now) }
    ensures steps { steps.new ≤ steps.old + 2 }
    ensures counted { steps.old ≤ steps.new }
{
    let Some(begins) = node_at(BEGINNING_NODE, edge) else {
        return Ok(None);
    };
    let Some(ends) = node_at(END_NODE, edge) else {
        return Ok(None);
    };
    let Some(first) = node_position(look, begins, steps) else {
        return Ok(None);
    };
    let Some(last) = node_position(look, ends, steps) else {
        return Ok(None);
    };
    let points = points_between(alloc, first, edge.plane.as_slice(), last)?;
    Ok(Some(EdgeLine {
        begins,
        ends,
        points: Items::of_vec(points),
    }))
}

/// The line of the edge of a name (S-57 Part 2, 2.2.1.2; Part 3, 7.7.1.4): its nodes, and its points from the one to
/// the other. There is none where the name isn't an edge's, where it hasn't exactly one beginning node and one end
/// node, or where one of these isn't a connected node with exactly one position.
///
/// It makes at most three look-ups. An `Err` means out of memory.
#[tactic(auto, unfolding(rule_spec::specs::EdgePoints::edge_line_of))]
pub fn edge_line<B: Look, L: Ledger>(
    alloc: Global,
    look: &B,
    name: RecName,
    steps: &mut Steps<L>,
) -> Result<Option<EdgeLine>, AllocError>
    ensures line { IfOk result (λ line. line ≡ edge_line_of (B.cell look.now) name) }
    ensures steps { steps.new ≤ steps.old + 3 }
    ensures counted { steps.old ≤ steps.new }
{
    match edge_named(look, name, steps) {
        Some(edge) => line_of(alloc, look, edge, steps),
        None => Ok(None),
    }
}

/// The points of the edge of a name, latitude first, in integer coordinate units: those of its line.
///
/// It makes at most three look-ups. An `Err` means out of memory.
pub fn edge_points<B: Look, L: Ledger>(
    alloc: Global,
    look: &B,
    name: RecName,
    steps: &mut Steps<L>,
) -> Result<Option<Plane>, AllocError>
    ensures points { IfOk result (λ points. points ≡ edge_points_of (B.cell look.now) name) }
    ensures steps { steps.new ≤ steps.old + 3 }
    ensures counted { steps.old ≤ steps.new }
{
    match edge_line(alloc, look, name, steps)? {
        Some(line) => Ok(Some(line.points)),
        None => Ok(None),
    }
}
