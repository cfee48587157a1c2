//! The nodes at the ends of a line.

ghost use Rattle.std.specs.Prelude.{◌≡◌, List, Some, true};
ghost use Rattle.std.specs.List.{All};
ghost use Rattle.s57_types.specs.declared.cell.Cell.{Cell as SpecCell};
ghost use Rattle.s57_types.specs.declared.record.End.{End as SpecEnd};
ghost use Rattle.cell_spec.specs.declared.key.Key.{Key as SpecKey};
ghost use Rattle.cell_spec.specs.declared.key.Key.TheVariants.{Name as KeyName};
ghost use Rattle.rule_spec.specs.EdgePoints.{node_at as spec_node_at, node_position as spec_position};
ghost use Rattle.near_records.specs.LineEnds.{line_end as spec_line_end};
ghost use Rattle.near_records.specs.Near.{has_key};

use crate::told::Near;
use chain_topo::{node_at, position_of};
use geometry_spec::Point;
use s57_types::{RecName, Vector};

/// A node at an end of a line, and its position: latitude first, in integer coordinate units.
#[derive(Clone, Copy)]
pub struct LineEnd {
    pub node: RecName,
    pub at: Point,
}

fn node_position<N: Near>(near: &N, node: RecName) -> Option<Point>
    ensures { (c : SpecCell) (keys : List SpecKey) → N.tells near.now c keys → has_key keys (KeyName node) ≡ true → result ≡ spec_position c node }
{
    position_of(near.record(node)?)
}

/// A node and its position, if it is a connected node with exactly one.
fn end_at<N: Near>(near: &N, node: RecName) -> Option<LineEnd>
    ensures { (c : SpecCell) (keys : List SpecKey) → N.tells near.now c keys → has_key keys (KeyName node) ≡ true → result ≡ spec_line_end c (Some node) }
{
    match node_position(near, node) {
        Some(at) => Some(LineEnd { node, at }),
        None => None,
    }
}

/// The node at the one end of an edge with a topology indicator TOPI (S-57 Part 3, 7.7.1.4), if it is a connected node with exactly one
/// position. What the edge's ends name is near.
pub fn line_end<N: Near>(near: &N, topi: u8, edge: &Vector) -> Option<LineEnd>
    ensures { (c : SpecCell) (keys : List SpecKey) → N.tells near.now c keys
        → All (λ (e : SpecEnd). has_key keys (KeyName e.to) ≡ true) edge.now.ends → result ≡ spec_line_end c (spec_node_at topi edge.now) }
{
    match node_at(topi, edge) {
        Some(node) => end_at(near, node),
        None => None,
    }
}
