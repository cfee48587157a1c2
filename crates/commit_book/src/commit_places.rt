//! The places of commits by the names that they edit.

ghost use Rattle.std.specs.Prelude.{◌≡◌, ◌≤◌, ◌∷◌, [], ℕ, OnOk, false, true};
ghost use Rattle.std.specs.List.{list_any};
ghost use Rattle.s57_types.specs.declared.name.RecName.{RecName as SpecName};
ghost use Rattle.cell_spec.specs.Names.{same_name};
ghost use Rattle.commit_book.specs.CommitPlaces.{AreKept, IsFirstPlace, has_place, place_order};
ghost use Rattle.commit_book.specs.declared.commit_places.CommitPlace.{CommitPlace as SpecPlace};

use s57_types::RecName;
use std::alloc::{AllocError, Global};
use std::collections::BTreeSet;

/// A name that a commit edits, and the place of that commit from 0. They are ordered by name, then by place.
#[derive(Clone, Copy, Debug, PartialEq, Eq, PartialOrd, Ord)]
pub(crate) struct CommitPlace {
    pub(crate) name: RecName,
    pub(crate) place: u32,
}

/// The places of commits at each name that they edit, so that the first commit above a base that edits a name is found without going
/// through those between.
pub(crate) struct CommitPlaces {
    pub(crate) noted: BTreeSet<CommitPlace>,
}

/// Places are ordered by the numbers that they and their names are made of.
fn places_are_by_parts()
    ensures { (p q : SpecPlace) → ⟦<CommitPlace as Ord>⟧.cmp p q ≡ place_order p q }
{}

impl Drop for CommitPlaces {
    fn drop(self) {
        let CommitPlaces { noted: _ } = self;
    }
}

impl CommitPlaces {
    /// No place, without taking memory.
    pub(crate) fn none(alloc: Global) -> CommitPlaces
        ensures { (n : SpecName) (k : ℕ) → has_place result n k ≡ false }
    {
        CommitPlaces {
            noted: BTreeSet::new(alloc),
        }
    }

    /// Notes a place at a name. An `Err` means out of memory.
    fn note_at(&mut self, name: RecName, place: u32) -> Result<(), AllocError>
        ensures kept { AreKept self.old self.new }
        ensures noted { OnOk result (has_place self.new name place ≡ true) }
    {
        places_are_by_parts();
        self.noted.insert(CommitPlace { name, place })?;
        Ok(())
    }

    /// Notes the place of a commit at each of the names that it edits.
    ///
    /// An `Err` means out of memory; some of these names may have the place then.
    pub(crate) fn note(&mut self, names: &[RecName], place: u32) -> Result<(), AllocError>
        ensures kept { AreKept self.old self.new }
        ensures noted { OnOk result ((n : SpecName) → list_any (λ name. same_name n name) names.now ≡ true → has_place self.new n place ≡ true) }
    {
        for name in names {
            self.note_at(*name, place)?;
        }
        Ok(())
    }

    /// The first place from one up to another that is noted at a name; the other where there is none.
    fn first_at(&self, name: RecName, from: u32, to: u32) -> u32
        requires { from ≤ to }
        ensures { IsFirstPlace self.now (name ∷ []) from to result }
    {
        places_are_by_parts();
        let start = CommitPlace { name, place: from };
        let end = CommitPlace { name, place: to };
        let mut between = self.noted.range(start..end);
        match between.next() {
            Some(first) => first.place,
            None => to,
        }
    }

    /// The first place from one up to another that is noted at one of some names; the other where there is none.
    pub(crate) fn first_place(&self, names: &[RecName], from: u32, to: u32) -> u32
        requires { from ≤ to }
        ensures { IsFirstPlace self.now names.now from to result }
    {
        let mut first = to;
        for name in names {
            first = self.first_at(*name, from, first);
        }
        first
    }
}
