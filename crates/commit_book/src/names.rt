//! The names on which two sets of edits meet.

ghost use Rattle.std.specs.Prelude.{◌≡◌, find};
ghost use Rattle.std.specs.List.{list_any};
ghost use Rattle.std.specs.List.Sorted.{IsStrictlySortedBy};
ghost use Rattle.cell_spec.specs.Ascending.{ascending};
ghost use Rattle.cell_spec.specs.Names.{name_order, same_name};
ghost use Rattle.history_spec.specs.Steps.{contested_names, first_of};

use cell_spec::orders_are_by_parts;
use edit_sets::EditSet;
use s57_types::RecName;
use std::cmp::Ordering;

/// The first name that stands in both of two lists in order: both are gone through once.
fn first_common(names: &[RecName], others: &[RecName]) -> Option<RecName>
    requires names { IsStrictlySortedBy name_order names.now }
    requires others { IsStrictlySortedBy name_order others.now }
    ensures { result ≡ find (λ name. list_any (λ other. same_name name other) others.now) names.now }
{
    orders_are_by_parts();
    let mut left = names;
    let mut right = others;
    while let (Some((name, names_behind)), Some((other, others_behind))) = (
        left.split_first(),
        right.split_first(),
    ) {
        match name.cmp(other) {
            Ordering::Less => left = names_behind,
            Ordering::Equal => return Some(*name),
            Ordering::Greater => right = others_behind,
        }
    }
    None
}

/// The least name that a set edits or guards and that another set edits.
pub(crate) fn least_contested(set: &EditSet, other: &EditSet) -> Option<RecName>
    ensures { result ≡ first_of (ascending name_order (contested_names set.now.edits set.now.guards other.now.edits)) }
{
    first_common(set.claims(), other.names())
}
