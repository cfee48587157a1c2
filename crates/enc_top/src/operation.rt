//! Operations on edges, as words ask for them.

ghost use Rattle.std.specs.Prelude.{◌≡◌, map, string_bytes};
ghost use Rattle.enc_top.specs.Words.{join_in, operation_in, split_in};

use crate::words::number_of;

/// An operation on the edges of a cell, by the numbers (RCID) of its records.
#[derive(Clone, Copy, Debug, PartialEq, Eq)]
pub enum Operation {
    /// The edge is split at one of its points by a new connected node and a new edge.
    Split {
        edge: u32,
        at: u32,
        node: u32,
        fresh: u32,
    },
    /// The edge is joined with the one behind it.
    Join {
        edge: u32,
        other: u32,
    },
}

/// What is done to edges.
#[derive(Clone, Copy, Debug, PartialEq, Eq)]
pub(crate) enum OperationKind {
    Split,
    Join,
}

/// The split that the words behind the names of files ask for.
fn split_in_words(numbers: &[String]) -> Option<Operation>
    ensures { result ≡ split_in (map string_bytes numbers.now) }
{
    let [edge, at, node, fresh] = numbers else {
        return None;
    };
    Some(Operation::Split {
        edge: number_of(edge.as_str())?,
        at: number_of(at.as_str())?,
        node: number_of(node.as_str())?,
        fresh: number_of(fresh.as_str())?,
    })
}

/// The join that the words behind the names of files ask for.
fn join_in_words(numbers: &[String]) -> Option<Operation>
    ensures { result ≡ join_in (map string_bytes numbers.now) }
{
    let [edge, other] = numbers else {
        return None;
    };
    Some(Operation::Join {
        edge: number_of(edge.as_str())?,
        other: number_of(other.as_str())?,
    })
}

/// The operation of a kind that the words behind the names of files ask for.
pub(crate) fn operation_in_words(kind: OperationKind, numbers: &[String]) -> Option<Operation>
    ensures { result ≡ operation_in kind (map string_bytes numbers.now) }
{
    match kind {
        OperationKind::Split => split_in_words(numbers),
        OperationKind::Join => join_in_words(numbers),
    }
}
