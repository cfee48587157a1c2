//! Laws of the definitions, each the contract of a function that does nothing.

ghost use Rattle.std.specs.Prelude.{◌≡◌};
ghost use Rattle.s57_types.specs.declared.name.Lnam.{Lnam as SpecLnam};
ghost use Rattle.s57_types.specs.declared.name.RecName.{RecName as SpecRecName};
ghost use Rattle.cell_spec.specs.declared.finding.Finding.{Finding as SpecFinding};
ghost use Rattle.cell_spec.specs.declared.key.Key.{Key as SpecKey};
ghost use Rattle.cell_spec.specs.declared.key.Ref.{Ref as SpecRef};
ghost use Rattle.cell_spec.specs.declared.key.Subject.{Subject as SpecSubject};
ghost use Rattle.cell_spec.specs.Names.{name_order, identity_order, ref_order, key_order, subject_order, finding_order};
ghost use Rattle.cell_spec.specs.Orders.{IsExactOrder};
ghost use Rattle.cell_spec.specs.Readable.{WritableCellsAreReadable};

use crate::finding::Finding;
use crate::key::{Key, Ref, Subject};
use s57_types::{Lnam, RecName};

/// Names, identifiers, pointers, keys, subjects and findings are ordered by the numbers that they are made of.
pub fn orders_are_by_parts()
    ensures names { (a b : SpecRecName) → ⟦<RecName as Ord>⟧.cmp a b ≡ name_order a b }
    ensures identities { (a b : SpecLnam) → ⟦<Lnam as Ord>⟧.cmp a b ≡ identity_order a b }
    ensures refs { (a b : SpecRef) → ⟦<Ref as Ord>⟧.cmp a b ≡ ref_order a b }
    ensures keys { (a b : SpecKey) → ⟦<Key as Ord>⟧.cmp a b ≡ key_order a b }
    ensures subjects { (a b : SpecSubject) → ⟦<Subject as Ord>⟧.cmp a b ≡ subject_order a b }
    ensures findings { (a b : SpecFinding) → ⟦<Finding as Ord>⟧.cmp a b ≡ finding_order a b }
{}

/// These orders are total, and only one and the same tie.
pub fn orders_are_exact()
    ensures names { IsExactOrder name_order }
    ensures identities { IsExactOrder identity_order }
    ensures refs { IsExactOrder ref_order }
    ensures keys { IsExactOrder key_order }
    ensures subjects { IsExactOrder subject_order }
{}

/// A cell that can be written can be looked into.
pub fn writable_cells_are_readable()
    ensures { WritableCellsAreReadable }
{}
