//! Attributes that are found by their codes.

ghost use Rattle.std.specs.Prelude.{◌≡◌, ◌++◌, ◌∷◌, [], slice_set, true, Some, None, IfOk, OnOk};
ghost use Rattle.update_spec.specs.UpdatedAttributes.{is_delete_value, with_given};
ghost use Rattle.update_apply.specs.CodedAttributes.{AreIndexed, IsFirst, IsNext, present, stands_at};

use s57_types::{Attr, Attrs, Duplicate, Items};
use std::alloc::{AllocError, Global};
use std::collections::BTreeSet;

/// Attributes in their order, of which the first of a code is found without going through the others. One that was taken away
/// leaves a gap.
#[derive(Drop)]
pub struct CodedAttrs {
    slots: Vec<Option<Attr>>,
    /// The code of each attribute, and its place.
    places: BTreeSet<(u16, usize)>,
}

/// Whether a value, of a text at a lexical level, deletes an attribute.
fn is_delete_value(level: u8, value: &[u8]) -> bool
    ensures { result ≡ is_delete_value level value.now }
{
    if level == 2 {
        value == [0x7f, 0].as_slice()
    } else {
        value == [0x7f].as_slice()
    }
}

/// The code and the place of an attribute that come first from the beginning of a code on.
fn next_place(places: &BTreeSet<(u16, usize)>, code: u16) -> Option<(u16, usize)>
    ensures { IsNext places.now code result }
{
    places.range((code, 0)..).next().copied()
}

impl CodedAttrs {
    /// Copies of attributes.
    ///
    /// An `Err` means out of memory.
    pub fn copy_of(alloc: Global, attrs: &Attrs) -> Result<CodedAttrs, AllocError>
        ensures indexed { IfOk result AreIndexed }
        ensures attributes { IfOk result (λ coded. present coded.slots.items ≡ attrs.now) }
    {
        let mut coded = CodedAttrs {
            slots: Vec::with_capacity(alloc, attrs.len())?,
            places: BTreeSet::new(alloc),
        };
        for attr in attrs.as_slice() {
            coded.push(attr.copy(alloc)?)?;
        }
        Ok(coded)
    }

    /// Puts an attribute last.
    fn push(&mut self, attr: Attr) -> Result<(), AllocError>
        requires { AreIndexed self.old }
        ensures indexed { OnOk result (AreIndexed self.new) }
        ensures slots { OnOk result (self.new.slots.items ≡ self.old.slots.items ++ (Some attr ∷ [])) }
    {
        self.places.insert((attr.code, self.slots.len()))?;
        self.slots.push(Some(attr))?;
        Ok(())
    }

    /// Where the first attribute of a code stands.
    fn first_place(&self, code: u16) -> Option<usize>
        requires { AreIndexed self.now }
        ensures { IsFirst code self.now.slots.items result }
    {
        let (found, place) = next_place(&self.places, code)?;
        if found == code { Some(place) } else { None }
    }

    /// Takes the attribute of a code away that stands at a place.
    fn take_away(&mut self, code: u16, place: usize)
        requires indexed { AreIndexed self.old }
        requires stands { stands_at code place self.old.slots.items ≡ true }
        ensures indexed { AreIndexed self.new }
        ensures slots { self.new.slots.items ≡ slice_set self.old.slots.items place None }
    {
        self.places.remove(&(code, place));
        self.slots[place] = None;
    }

    /// Puts an attribute over one of its code that stands at a place.
    fn replace(&mut self, place: usize, attr: Attr)
        requires indexed { AreIndexed self.old }
        requires stands { stands_at attr.code place self.old.slots.items ≡ true }
        ensures indexed { AreIndexed self.new }
        ensures slots { self.new.slots.items ≡ slice_set self.old.slots.items place (Some attr) }
    {
        self.slots[place] = Some(attr);
    }

    /// Takes one given attribute at a lexical level: the delete value takes the first of its code away, any other value replaces that
    /// one's or stands last.
    ///
    /// An `Err` means out of memory.
    #[tactic(auto, unfolding(update_spec::specs::UpdatedAttributes::with_given))]
    pub fn take_given(&mut self, alloc: Global, level: u8, given: &Attr) -> Result<(), AllocError>
        requires { AreIndexed self.old }
        ensures indexed { OnOk result (AreIndexed self.new) }
        ensures attributes { OnOk result (present self.new.slots.items ≡ with_given level (present self.old.slots.items) given.now) }
    {
        let place = self.first_place(given.code);
        if is_delete_value(level, given.value.as_slice()) {
            if let Some(k) = place {
                self.take_away(given.code, k);
            }
            return Ok(());
        }
        let attr = given.copy(alloc)?;
        match place {
            Some(k) => self.replace(k, attr),
            None => self.push(attr)?,
        }
        Ok(())
    }

    /// The attributes without the gaps.
    ///
    /// An `Err` means out of memory.
    pub fn into_attrs(self, alloc: Global) -> Result<Attrs, AllocError>
        ensures { IfOk result (λ attrs. attrs ≡ present self.slots.items) }
    {
        let mut attrs = Vec::with_capacity(alloc, self.slots.len())?;
        for slot in self.slots {
            if let Some(attr) = slot {
                attrs.push(attr)?;
            }
        }
        Ok(Items::of_vec(attrs))
    }
}
