//! The form of edits and their guards.

ghost use Rattle.std.specs.Prelude.{◌≡◌, ◌++◌, ◌∷◌, [], ◌+◌, ◌^◌, ◌<◌, List, IfNone, MatchResult, length, true};
ghost use Rattle.std.specs.List.{list_any};
ghost use Rattle.std.specs.List.Sorted.{IsStrictlySortedBy};
ghost use Rattle.cell_spec.specs.Edits.{name_of_edit};
ghost use Rattle.cell_spec.specs.Names.{name_order, same_name};
ghost use Rattle.cell_spec.specs.declared.edit.Edit.{Edit as SpecEdit};
ghost use Rattle.edit_sets.specs.Counts.{count_fault as spec_count_fault};
ghost use Rattle.edit_sets.specs.FormFault.{edit_fault as spec_edit_fault, unfitness_of_edit};
ghost use Rattle.edit_sets.specs.Places.{ArePlaces, IsEditRefusal, IsWithoutFault};

use crate::fault::{FormFault, FormRefusal};
use crate::places::Places;
use cell_spec::Edit;
use record_fit::{fits, has_plain_texts};
use s57_types::Unfit;
use std::alloc::Global;

/// The most edits of a set.
const MOST_EDITS: usize = 4_096;

/// The most guards of a set.
const MOST_GUARDS: usize = 4_096;

/// What is wrong with the numbers of edits and guards, if anything.
pub(crate) fn count_fault(edits: usize, guards: usize) -> Option<FormFault>
    requires edits_are_counted { edits < 2 ^ 32 }
    requires guards_are_counted { guards < 2 ^ 32 }
    ensures { result ≡ spec_count_fault edits guards }
{
    if edits == 0 {
        return Some(FormFault::Empty);
    }
    if edits > MOST_EDITS {
        return Some(FormFault::TooMany(edits as u32));
    }
    if guards > MOST_GUARDS {
        return Some(FormFault::TooManyGuards(guards as u32));
    }
    None
}

/// The places of edits by their names. An `Err` is the first fault of an edit, or out of memory.
pub(crate) fn places_of(alloc: Global, edits: &[Edit], nall: u8) -> Result<Places, FormRefusal>
    requires { length edits.now < 2 ^ 32 }
    ensures { MatchResult result (IsWithoutFault nall edits.now) (IsEditRefusal nall edits.now) }
{
    let mut places = Places::make(alloc, edits)?;
    for (k, edit) in edits.iter().enumerate() {
        if let Some(fault) = edit_fault(&mut places, k as u32, edit, nall) {
            return Err(FormRefusal::Fault(fault));
        }
    }
    Ok(places)
}

/// Notes the place of an edit from 0, or tells what is wrong with it.
fn edit_fault(places: &mut Places, place: u32, edit: &Edit, nall: u8) -> Option<FormFault>
    requires rise { IsStrictlySortedBy name_order places.old.names }
    requires among { list_any (λ other. same_name other (name_of_edit edit.now)) places.old.names ≡ true }
    requires as_many { length places.old.places.items ≡ length places.old.names }
    requires counted { place + 1 < 2 ^ 32 }
    ensures names { places.new.names ≡ places.old.names }
    ensures fault { (earlier : List SpecEdit) → ArePlaces earlier places.old.names places.old.places.items → length earlier ≡ place
        → result ≡ spec_edit_fault nall earlier (place + 1) edit.now }
    ensures noted { (earlier : List SpecEdit) → ArePlaces earlier places.old.names places.old.places.items → length earlier ≡ place
        → IfNone result (ArePlaces (earlier ++ edit.now ∷ []) places.new.names places.new.places.items) }
{
    if !places.put(edit.name(), place) {
        return Some(FormFault::Twice(place + 1));
    }
    let why = unfitness(edit, nall)?;
    Some(FormFault::Unfit(place + 1, why))
}

/// Why what the edit leaves can't be written, if it can't. A deletion leaves nothing.
fn unfitness(edit: &Edit, nall: u8) -> Option<Unfit>
    ensures { result ≡ unfitness_of_edit nall edit.now }
{
    match edit {
        Edit::Add(rec) | Edit::Set(rec) => fits(rec, nall).err(),
        Edit::Del(_) => None,
        Edit::Head(edit) if has_plain_texts(edit) => None,
        Edit::Head(_) => Some(Unfit::BadText),
    }
}
