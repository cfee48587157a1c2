//! What is split or joined.

ghost use Rattle.std.specs.Prelude.{◌≡◌};
ghost use Rattle.topo_ops.specs.Chains.{edge_name as named_edge};
ghost use Rattle.topo_ops.specs.Join.{join_by};
ghost use Rattle.topo_ops.specs.Split.{split_by};

use s57_types::{Kind, RecName};

/// The split of an edge at one of its points, counted from 1 at its beginning node, by a new connected node and a new edge, which
/// goes from the point to the edge's end node.
#[derive(Clone, Copy, Debug, PartialEq, Eq)]
pub struct EdgeSplit {
    pub edge: RecName,
    pub at: u32,
    pub node: RecName,
    pub fresh: RecName,
}

/// The join of an edge with another one that begins where it ends.
#[derive(Clone, Copy, Debug, PartialEq, Eq)]
pub struct EdgeJoin {
    pub edge: RecName,
    pub other: RecName,
}

/// The name of an edge by its number (RCID).
fn edge_name(id: u32) -> RecName
    ensures { result ≡ named_edge id }
{
    RecName { kind: Kind::Ve, id }
}

impl EdgeSplit {
    /// A split by the numbers (RCID) of the edge, the node and the new edge.
    pub fn of_numbers(edge: u32, at: u32, node: u32, fresh: u32) -> EdgeSplit
        ensures { result ≡ split_by edge at node fresh }
    {
        EdgeSplit {
            edge: edge_name(edge),
            at,
            node: RecName {
                kind: Kind::Vc,
                id: node,
            },
            fresh: edge_name(fresh),
        }
    }
}

impl EdgeJoin {
    /// A join by the numbers (RCID) of the edges.
    pub fn of_numbers(edge: u32, other: u32) -> EdgeJoin
        ensures { result ≡ join_by edge other }
    {
        EdgeJoin {
            edge: edge_name(edge),
            other: edge_name(other),
        }
    }
}
