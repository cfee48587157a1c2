//! The names of records and of feature objects.

ghost use Rattle.std.specs.Prelude.{◌≡◌};
ghost use Rattle.std.proofs.Common.{rules};
ghost use Rattle.std.specs.Cmp.{partial_order_from_own_ties};
ghost use Rattle.std.specs.Cmp.Rules.{comparing};
ghost use Rattle.std.specs.Ordering.{nat_cmp, on, then_cmp, as_partial_cmp};

use std::cmp::Ordering;

/// The kind of a record, in the order of names; its code is RCNM (S-57 Part 3, 2.2).
#[derive(Clone, Copy, Debug, PartialEq, Eq, PartialOrd, Ord, Hash)]
pub enum Kind {
    /// An isolated node, RCNM 110.
    Vi,
    /// A connected node, RCNM 120.
    Vc,
    /// An edge, RCNM 130.
    Ve,
    /// A feature, RCNM 100.
    Fe,
    /// The head of a cell, whose first record has RCNM 10.
    Head,
}

/// The name of a record: its kind and its identification number RCID (S-57 Part 3, 2.2). Names are ordered by
/// kind, then by number.
#[derive(Clone, Copy, Debug, PartialEq, Eq, Hash)]
pub struct RecName {
    pub kind: Kind,
    pub id: u32,
}

impl RecName {
    ghost use Rattle.s57_types.specs.Heads.{head_name};

    /// The one name of a cell's head.
    pub fn of_head() -> RecName
        ensures { result ≡ head_name }
    {
        RecName {
            kind: Kind::Head,
            id: 0,
        }
    }
}

impl Ord for RecName {
    ghost cmp = { then_cmp (on (λ n. n.kind) ⟦<Kind as Ord>⟧.cmp) (on (λ n. n.id) nat_cmp) };

    ghost total = { Prim.search (comparing, rules) };

    ghost matches_partial_cmp = { Prim.search (comparing, rules) };

    ghost matches_eq = { Prim.search (comparing, rules) };

    // Names that are compared are mostly of one kind, and whether kinds are equal is told sooner than their order.
    fn cmp(&self, other: &RecName) -> Ordering {
        if self.kind == other.kind {
            self.id.cmp(&other.id)
        } else {
            self.kind.cmp(&other.kind)
        }
    }
}

impl PartialOrd for RecName {
    ghost partial_cmp = { as_partial_cmp (then_cmp (on (λ n. n.kind) ⟦<Kind as Ord>⟧.cmp) (on (λ n. n.id) nat_cmp)) };

    ghost laws = { partial_order_from_own_ties (Prim.search (comparing, rules)) (Prim.search (comparing, rules)) };

    fn partial_cmp(&self, other: &RecName) -> Option<Ordering> {
        Some(self.cmp(other))
    }
}

/// A feature object identifier, the long name LNAM (S-57 Part 3, 4.3 and 7.6.2): the producing agency AGEN, the
/// identification number FIDN and its subdivision FIDS.
#[derive(Clone, Copy, Debug, PartialEq, Eq, PartialOrd, Ord, Hash)]
pub struct Lnam {
    pub agen: u16,
    pub fidn: u32,
    pub fids: u16,
}
