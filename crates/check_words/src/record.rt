//! Which names are those of edges, and which of two comes first.

ghost use Rattle.std.specs.Prelude.{◌≡◌};
ghost use Rattle.rule_spec.specs.{Findings.{is_below as spec_is_below}, Records.{is_edge_name as spec_is_edge}};

use cell_spec::orders_are_by_parts;
use s57_types::{Kind, RecName};

/// Whether a name is one of an edge.
pub fn is_edge_name(name: RecName) -> bool
    ensures { result ≡ spec_is_edge name }
{
    name.kind == Kind::Ve
}

/// Whether a name is below another in the order of names.
pub fn is_below(name: RecName, other: RecName) -> bool
    ensures { result ≡ spec_is_below name other }
{
    orders_are_by_parts();
    name.cmp(&other).is_lt()
}
