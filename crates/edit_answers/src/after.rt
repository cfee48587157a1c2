//! Pointers and bearers after edits.

ghost use Rattle.std.specs.Prelude.{◌≡◌, IfOk, filter, length, nat_lt};
ghost use Rattle.std.specs.List.{list_any};
ghost use Rattle.cell_spec.specs.declared.key.Ref.{Ref as SpecRef};
ghost use Rattle.answer_laws.specs.EditedAnswers.{bearers_after, is_unedited, pointers_after};

use crate::left::left_records;
use cell_spec::{Names, Ref, Refs, ascending_names, distinct, orders_are_by_parts};
use chain_topo::{Groups, group_identities, group_pointers};
use edit_sets::EditSet;
use s57_types::{Lnam, RecName};
use std::alloc::{AllocError, Global};
use std::marker::Model;

/// The pointers and identifiers of the records that an edit set leaves, sorted by key. It is seen as the edit set.
pub struct EditAnswers<'a> {
    edits: &'a EditSet,
    pointers: Groups<RecName, Ref>,
    bearers: Groups<Lnam, RecName>,
}

impl<'a> Drop for EditAnswers<'a> {
    fn drop(self) {
        let EditAnswers {
            edits: _,
            pointers: _,
            bearers: _,
        } = self;
    }
}

impl<'a> Model for EditAnswers<'a> {
    ghost use Rattle.edit_sets.specs.FormFault.{GuardedEdits};
    ghost use Rattle.edit_answers.specs.Left.{AreLeftBy};

    ghost Value = { GuardedEdits };

    ghost view = { λ a. a.edits.now };

    ghost invariant = { λ a. AreLeftBy a.edits.now.edits a.pointers a.bearers };
}

impl<'a> EditAnswers<'a> {
    /// What the records of an edit set answer. It sorts their pointers and identifiers.
    ///
    /// An `Err` means out of memory.
    pub fn make(alloc: Global, edits: &'a EditSet) -> Result<EditAnswers<'a>, AllocError>
        ensures { IfOk result (λ answers. answers ≡ edits.now) }
    {
        edits.known();
        let records = left_records(alloc, edits.edits())?;
        let pointers = group_pointers(alloc, &records)?;
        let bearers = group_identities(alloc, &records)?;
        Ok(EditAnswers {
            edits,
            pointers,
            bearers,
        })
    }

    /// The pointers to a name after the edits, from those before them.
    ///
    /// An `Err` means out of memory.
    pub fn pointers_after(
        &self,
        alloc: Global,
        name: RecName,
        before: &[Ref],
    ) -> Result<Refs, AllocError>
        ensures { IfOk result (λ refs. refs ≡ pointers_after self.now.edits name before.now) }
    {
        orders_are_by_parts();
        let mut list = self.unedited_pointers(alloc, before)?;
        list.extend_from_slice(self.pointers.values_of(&name))?;
        Ok(Refs::of_vec(distinct(list)))
    }

    /// The bearers of an identifier after the edits, from those before them.
    ///
    /// An `Err` means out of memory.
    pub fn bearers_after(
        &self,
        alloc: Global,
        foid: Lnam,
        before: &[RecName],
    ) -> Result<Names, AllocError>
        ensures { IfOk result (λ names. names ≡ bearers_after self.now.edits foid before.now) }
    {
        orders_are_by_parts();
        let mut list = self.unedited_bearers(alloc, before)?;
        list.extend_from_slice(self.bearers.values_of(&foid))?;
        Ok(ascending_names(list))
    }

    /// Whether a feature bears an identifier after the edits, from those that bore it before them.
    pub fn is_borne_after(&self, foid: Lnam, before: &[RecName]) -> bool
        ensures { result ≡ nat_lt 0 (length (bearers_after self.now.edits foid before.now)) }
    {
        orders_are_by_parts();
        if self.has_unedited(before) {
            return true;
        }
        !self.bearers.values_of(&foid).is_empty()
    }

    // Whether no edit is about one of the names.
    fn has_unedited(&self, names: &[RecName]) -> bool
        ensures { result ≡ list_any (is_unedited self.now.edits) names.now }
    {
        names.iter().any(|name| self.is_unedited(*name))
    }

    // Whether no edit is about the name.
    fn is_unedited(&self, name: RecName) -> bool
        ensures { result ≡ is_unedited self.now.edits name }
    {
        self.edits.find(name).is_none()
    }

    // The pointers that records have which no edit is about.
    fn unedited_pointers(&self, alloc: Global, before: &[Ref]) -> Result<Vec<Ref>, AllocError>
        ensures { IfOk result (λ list. list.items ≡ filter (λ (r : SpecRef). is_unedited self.now.edits r.from) before.now) }
    {
        let mut list = Vec::with_capacity(alloc, before.len())?;
        for pointer in before {
            if self.is_unedited(pointer.from) {
                list.push(*pointer)?;
            }
        }
        Ok(list)
    }

    // The names that no edit is about.
    fn unedited_bearers(
        &self,
        alloc: Global,
        before: &[RecName],
    ) -> Result<Vec<RecName>, AllocError>
        ensures { IfOk result (λ list. list.items ≡ filter (is_unedited self.now.edits) before.now) }
    {
        let mut list = Vec::with_capacity(alloc, before.len())?;
        for name in before {
            if self.is_unedited(*name) {
                list.push(*name)?;
            }
        }
        Ok(list)
    }
}
