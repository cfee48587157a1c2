//! Edges that can be split or joined.

ghost use Rattle.std.specs.Prelude.{◌≡◌, MatchResult, Some, option_and_then};
ghost use Rattle.std.specs.Option.{option_copied};
ghost use Rattle.rule_spec.specs.Records.{edge_named};
ghost use Rattle.topo_ops.specs.Chains.{chain_by, chain_named as chain_at, no_chain, two_ended};
ghost use Rattle.topo_ops.specs.Refusals.{IsRefusal};

use crate::refusal::OpRefusal;
use chain_topo::{Look, Steps, edge_line, edge_of};
use rule_spec::EdgeLine;
use s57_types::{RecName, Vector};
use std::alloc::Global;
use std::sync::ledger::Ledger;

/// An edge of exactly two ends, with its line from its beginning node to its end node.
#[derive(Drop)]
pub(crate) struct Chain<'a> {
    pub(crate) edge: &'a Vector,
    pub(crate) line: EdgeLine,
}

/// The edge of a name, if it has exactly two ends.
fn edge_of_two_ends<'a, B: Look, L: Ledger>(
    look: &'a B,
    name: RecName,
    steps: &mut Steps<L>,
) -> Option<&'a Vector>
    ensures { option_copied result ≡ option_and_then two_ended (edge_named (B.cell look.now) name) }
{
    let edge = edge_of(look.get(name, steps)?)?;
    if edge.ends.len() != 2 {
        return None;
    }
    Some(edge)
}

/// The edge of a name, where it has points and exactly two ends.
#[tactic(auto, unfolding(crate::specs::Chains::chain_named, rule_spec::specs::EdgePoints::edge_line_of))]
pub(crate) fn chain_named<'a, B: Look, L: Ledger>(
    alloc: Global,
    look: &'a B,
    name: RecName,
    steps: &mut Steps<L>,
) -> Result<Chain<'a>, OpRefusal>
    ensures { MatchResult result (λ chain. chain_at (B.cell look.now) name ≡ Some (chain_by chain.edge.now chain.line))
        (IsRefusal (no_chain name (chain_at (B.cell look.now) name))) }
{
    let Some(edge) = edge_of_two_ends(look, name, steps) else {
        return Err(OpRefusal::NoEdge(name.id));
    };
    let Some(line) = edge_line(alloc, look, name, steps)? else {
        return Err(OpRefusal::NoEdge(name.id));
    };
    Ok(Chain { edge, line })
}
