//! The places of edits, found by their names.

ghost use Rattle.std.specs.Prelude.{◌≡◌, ◌++◌, ◌∷◌, [], IfOk, List, MatchOption, MatchBool, Some, false, length, map, not, option_and_then, slice_get, true};
ghost use Rattle.std.specs.List.{list_any};
ghost use Rattle.std.specs.List.Sorted.{IsStrictlySortedBy};
ghost use Rattle.cell_spec.specs.Ascending.{ascending};
ghost use Rattle.cell_spec.specs.Edits.{edit_of, name_of_edit};
ghost use Rattle.cell_spec.specs.Names.{name_order, same_name};
ghost use Rattle.cell_spec.specs.declared.edit.Edit.{Edit as SpecEdit};
ghost use Rattle.edit_sets.specs.FormFault.{has_edit_of};
ghost use Rattle.edit_sets.specs.Places.{ArePlaces, ArePlacesOf};

use cell_spec::{Edit, Names, ascending_names, orders_are_by_parts};
use s57_types::RecName;
use std::alloc::{AllocError, Global};

/// The names of edits in order, each once, and of each name the place from 0 of the edit that has it, once it is noted.
#[derive(Debug)]
pub(crate) struct Places {
    pub(crate) names: Names,
    pub(crate) places: Vec<Option<u32>>,
}

impl Drop for Places {
    fn drop(self) {
        let Places {
            names: _,
            places: _,
        } = self;
    }
}

/// The names of edits.
pub(crate) fn names_of(alloc: Global, edits: &[Edit]) -> Result<Vec<RecName>, AllocError>
    ensures { IfOk result (λ names. names.items ≡ map name_of_edit edits.now) }
{
    let mut names = Vec::with_capacity(alloc, edits.len())?;
    for edit in edits {
        names.push(edit.name())?;
    }
    Ok(names)
}

/// The place of a name among names in order.
fn place_among(names: &[RecName], name: RecName) -> Option<usize>
    requires { IsStrictlySortedBy name_order names.now }
    ensures { MatchOption result (list_any (λ other. same_name other name) names.now ≡ false) (λ place. slice_get names.now place ≡ Some name) }
{
    orders_are_by_parts();
    match names.binary_search(&name) {
        Ok(place) => Some(place),
        Err(_) => None,
    }
}

impl Places {
    /// The names of edits without their places.
    pub(crate) fn make(alloc: Global, edits: &[Edit]) -> Result<Places, AllocError>
        ensures names { IfOk result (λ places. places.names ≡ ascending name_order (map name_of_edit edits.now)) }
        ensures none { IfOk result (λ places. ArePlaces [] places.names places.places.items) }
    {
        let names = ascending_names(names_of(alloc, edits)?);
        let places = vec![in alloc; None; names.len()]?;
        Ok(Places { names, places })
    }

    /// The place of the edit of a name, if there is one.
    pub(crate) fn get(&self, name: RecName) -> Option<u32>
        requires rise { IsStrictlySortedBy name_order self.now.names }
        requires as_many { length self.now.places.items ≡ length self.now.names }
        ensures { (edits : List SpecEdit) → ArePlacesOf edits self.now → option_and_then (slice_get edits) result ≡ edit_of name edits }
    {
        let k = place_among(self.names.as_slice(), name)?;
        self.places[k]
    }

    /// Notes the place of the edit of a name, unless the place of an earlier one is noted. Whether none was.
    pub(crate) fn put(&mut self, name: RecName, place: u32) -> bool
        requires rise { IsStrictlySortedBy name_order self.old.names }
        requires among { list_any (λ other. same_name other name) self.old.names ≡ true }
        requires as_many { length self.old.places.items ≡ length self.old.names }
        ensures names { self.new.names ≡ self.old.names }
        ensures noted { (earlier : List SpecEdit) (edit : SpecEdit) → ArePlaces earlier self.old.names self.old.places.items
            → name_of_edit edit ≡ name → length earlier ≡ place
            → MatchBool result (ArePlaces (earlier ++ edit ∷ []) self.new.names self.new.places.items) (self.new ≡ self.old) }
        ensures new { (earlier : List SpecEdit) → ArePlaces earlier self.old.names self.old.places.items → has_edit_of name earlier ≡ not result }
    {
        let Some(k) = place_among(self.names.as_slice(), name) else {
            return false;
        };
        if self.places[k].is_some() {
            return false;
        }
        self.places[k] = Some(place);
        true
    }
}
