//! The nodes at the ends of an edge, each looked up.

ghost use Rattle.std.specs.Prelude.{◌≡◌, ◌≤◌, ◌+◌, Some};
ghost use Rattle.near_records.specs.LineEnds.{line_end as spec_line_end};
ghost use Rattle.rule_spec.specs.EdgePoints.{node_at as spec_node_at, node_position as spec_position};

use chain_topo::{Look, Steps, node_at, position_of};
use geometry_spec::Point;
use near_records::LineEnd;
use s57_types::{RecName, Vector};
use std::sync::ledger::Ledger;

fn node_position<B: Look, L: Ledger>(look: &B, node: RecName, steps: &mut Steps<L>) -> Option<Point>
    ensures found { result ≡ spec_position (B.cell look.now) node }
    ensures step { steps.new ≡ steps.old + 1 }
{
    position_of(look.get(node, steps)?)
}

/// A node and its position, if it is a connected node with exactly one.
fn end_at<B: Look, L: Ledger>(look: &B, node: RecName, steps: &mut Steps<L>) -> Option<LineEnd>
    ensures found { result ≡ spec_line_end (B.cell look.now) (Some node) }
    ensures step { steps.new ≡ steps.old + 1 }
{
    match node_position(look, node, steps) {
        Some(at) => Some(LineEnd { node, at }),
        None => None,
    }
}

/// The node at the one end of an edge with a topology indicator TOPI (S-57 Part 3, 7.7.1.4), if it is a connected node with exactly one
/// position.
///
/// It makes at most one look-up.
pub(crate) fn line_end<B: Look, L: Ledger>(
    look: &B,
    topi: u8,
    edge: &Vector,
    steps: &mut Steps<L>,
) -> Option<LineEnd>
    ensures found { result ≡ spec_line_end (B.cell look.now) (spec_node_at topi edge.now) }
    ensures steps { steps.new ≤ steps.old + 1 }
    ensures counted { steps.old ≤ steps.new }
{
    match node_at(topi, edge) {
        Some(node) => end_at(look, node, steps),
        None => None,
    }
}
