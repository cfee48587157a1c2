//! What can be looked up in a cell, and what a finding is about.

ghost use Rattle.std.proofs.Common.{rules};
ghost use Rattle.std.specs.Cmp.{partial_order_from_own_ties};
ghost use Rattle.std.specs.Cmp.Rules.{comparing};
ghost use Rattle.std.specs.Ordering.{as_partial_cmp};
ghost use Rattle.cell_spec.specs.Names.{key_order};
ghost use Rattle.cell_spec.specs.KeyTies.{keys_tie};

use crate::law::orders_are_by_parts;
use s57_types::{Items, Lnam, RecName};
use std::cmp::Ordering;

/// A question to a cell, in the order of keys: by what is asked, then by the name or the identifier.
#[derive(Clone, Copy, Debug, PartialEq, Eq, Hash)]
pub enum Key {
    /// The record of that name, or none.
    Name(RecName),
    /// The pointers to that name, ascending.
    Refs(RecName),
    /// The features that bear that feature object identifier, ascending.
    Foid(Lnam),
}

impl Ord for Key {
    ghost cmp = { key_order };

    ghost total = { Prim.search (comparing, rules) };

    ghost matches_partial_cmp = { Prim.search (comparing, rules) };

    ghost matches_eq = { keys_tie };

    fn cmp(&self, other: &Key) -> Ordering {
        orders_are_by_parts();
        match (self, other) {
            (Key::Name(name), Key::Name(second)) => name.cmp(second),
            (Key::Refs(name), Key::Refs(second)) => name.cmp(second),
            (Key::Foid(foid), Key::Foid(second)) => foid.cmp(second),
            (Key::Name(_), _) | (_, Key::Foid(_)) => Ordering::Less,
            _ => Ordering::Greater,
        }
    }
}

impl PartialOrd for Key {
    ghost partial_cmp = { as_partial_cmp key_order };

    ghost laws = { partial_order_from_own_ties (Prim.search (comparing, rules)) keys_tie };

    fn partial_cmp(&self, other: &Key) -> Option<Ordering> {
        Some(self.cmp(other))
    }
}

/// A pointer to a record, seen from the record pointed to: the record that has it and its place there, from 1.
#[derive(Clone, Copy, Debug, PartialEq, Eq, PartialOrd, Ord, Hash)]
pub struct Ref {
    pub from: RecName,
    pub place: u32,
}

/// What a finding is about, in the order of subjects.
#[derive(Clone, Copy, Debug, PartialEq, Eq, PartialOrd, Ord, Hash)]
pub enum Subject {
    /// A record.
    Rec(RecName),
    /// An edge and the areas on its two sides.
    Side(RecName),
    /// Two connected nodes or edges, the lesser name first.
    Pair(RecName, RecName),
    /// A feature object identifier.
    Ident(Lnam),
}

/// Keys one after the other.
pub type Keys = Items<Key>;

/// Pointers to a record.
pub type Refs = Items<Ref>;

/// Subjects one after the other.
pub type Subjects = Items<Subject>;

/// Names one after the other.
pub type Names = Items<RecName>;
