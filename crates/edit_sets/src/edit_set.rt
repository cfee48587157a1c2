//! A set of edits.

ghost use Rattle.std.specs.Prelude.{◌≡◌, ◌++◌, ◌^◌, ◌<◌, IfOk, MatchResult, length, map};
ghost use Rattle.std.specs.Option.{option_copied};
ghost use Rattle.cell_spec.specs.Ascending.{ascending};
ghost use Rattle.cell_spec.specs.Edits.{edit_of, name_of_edit};
ghost use Rattle.cell_spec.specs.Names.{name_order};

use crate::fault::FormRefusal;
use crate::form::{count_fault, places_of};
use crate::places::{Places, names_of};
use cell_spec::{Edit, Names, ascending_names};
use s57_types::{Duplicate, Items, RecName};
use std::alloc::{AllocError, Global};
use std::marker::Model;
use std::sync::Arc;

/// From 1 to 4,096 edits of different names, what each leaves can be written where national attributes are at a level NALL, and
/// up to 4,096 guards: names that the edits rest on without changing what they name. It is seen as its edits, its guards and
/// that level. A copy shares them.
#[derive(Debug)]
pub struct EditSet {
    parts: Arc<Parts, Global>,
}

impl Drop for EditSet {
    fn drop(self) {
        let EditSet { parts: _ } = self;
    }
}

/// What an edit set keeps.
#[derive(Debug, Drop)]
struct Parts {
    edits: Items<Edit>,
    guards: Items<RecName>,
    nall: u8,
    places: Places,
    /// The names of the edits and the guards in order, each once.
    claims: Names,
}

impl Model for EditSet {
    ghost use Rattle.std.specs.Arc.{arc_value};
    ghost use Rattle.edit_sets.specs.FormFault.{GuardedEdits};
    ghost use Rattle.edit_sets.specs.Parts.{AreParts};

    ghost Value = { GuardedEdits };

    ghost view = { λ set. record { edits = (arc_value set.parts).edits; guards = (arc_value set.parts).guards; nall = (arc_value set.parts).nall } };

    ghost invariant = { λ set. AreParts (arc_value set.parts) };
}

/// The names of edits and guards in order, each once.
fn claims_of(alloc: Global, edits: &[Edit], guards: &[RecName]) -> Result<Names, AllocError>
    ensures { IfOk result (λ claims. claims ≡ ascending name_order (map name_of_edit edits.now ++ guards.now)) }
{
    let mut names = names_of(alloc, edits)?;
    names.extend_from_slice(guards)?;
    Ok(ascending_names(names))
}

impl EditSet {
    ghost use Rattle.edit_sets.specs.FormFault.{form_fault, IsFormed, IsSetOf, IsFormRefusal};
    ghost use Rattle.edit_sets.specs.Parts.{AreParts};

    /// The set of copies of these edits and guards at the level NALL. Guards may repeat, may be names of the edits and may be
    /// names of nothing.
    ///
    /// An `Err` is the first fault of their form, or out of memory.
    pub fn make(
        alloc: Global,
        edits: &[Edit],
        guards: &[RecName],
        nall: u8,
    ) -> Result<EditSet, FormRefusal>
        requires edits_are_counted { length edits.now < 2 ^ 32 }
        requires guards_are_counted { length guards.now < 2 ^ 32 }
        ensures { MatchResult result (IsSetOf nall edits.now guards.now) (IsFormRefusal nall edits.now guards.now) }
    {
        if let Some(fault) = count_fault(edits.len(), guards.len()) {
            return Err(FormRefusal::Fault(fault));
        }
        let parts = Parts {
            places: places_of(alloc, edits, nall)?,
            claims: claims_of(alloc, edits, guards)?,
            edits: Items::copy_of(alloc, edits)?,
            guards: Items::copy_of(alloc, guards)?,
            nall,
        };
        Ok(EditSet::of(alloc, parts)?)
    }

    /// The set that keeps these parts.
    fn of(alloc: Global, parts: Parts) -> Result<EditSet, AllocError>
        requires { AreParts parts }
        ensures { IfOk result (λ set. (set.edits ≡ parts.edits) × (set.guards ≡ parts.guards) × (set.nall ≡ parts.nall)) }
    {
        Ok(EditSet {
            parts: Arc::new(alloc, parts)?,
        })
    }

    /// What every edit set keeps.
    #[tactic(auto, using(crate::proofs::Formed::formed))]
    pub fn known(&self)
        ensures form { form_fault self.now.nall self.now.edits self.now.guards ≡ None }
        ensures parts { IsFormed self.now.nall self.now.edits self.now.guards }
    {
        let _ = &self.parts;
    }

    /// The edits in their order.
    pub fn edits(&self) -> &[Edit]
        ensures { result.now ≡ self.now.edits }
    {
        self.parts.edits.as_slice()
    }

    /// The names that the edits rest on, in their order. It takes no memory.
    pub fn guards(&self) -> &[RecName]
        ensures { result.now ≡ self.now.guards }
    {
        self.parts.guards.as_slice()
    }

    /// The level NALL under which the records can be written.
    pub fn nall(&self) -> u8
        ensures { result ≡ self.now.nall }
    {
        self.parts.nall
    }

    /// The names of the edits in order. It takes no memory.
    pub fn names(&self) -> &[RecName]
        ensures { result.now ≡ ascending name_order (map name_of_edit self.now.edits) }
    {
        self.parts.places.names.as_slice()
    }

    /// The names that a commit of the set rests on, those of the edits and the guards, in order, each once. It takes no
    /// memory.
    pub fn claims(&self) -> &[RecName]
        ensures { result.now ≡ ascending name_order (map name_of_edit self.now.edits ++ self.now.guards) }
    {
        self.parts.claims.as_slice()
    }

    /// The edit of a name, if there is one.
    pub fn find(&self, name: RecName) -> Option<&Edit>
        ensures { option_copied result ≡ edit_of name self.now.edits }
    {
        let place = self.parts.places.get(name)?;
        self.parts.edits.as_slice().get(place as usize)
    }
}

impl Duplicate for EditSet {
    /// The same set, shared. An `Err` says that it can't be counted any more.
    fn copy(&self, _alloc: Global) -> Result<EditSet, AllocError> {
        Ok(EditSet {
            parts: Arc::try_clone(&self.parts)?,
        })
    }
}
