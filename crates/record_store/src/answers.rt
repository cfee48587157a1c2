//! The pointers to names and the bearers of identifiers.

ghost use Rattle.std.specs.Prelude.{◌≡◌, ◌∷◌, ◌++◌, [], IfOk, List, OnOk};
ghost use Rattle.std.specs.List.Sorted.{IsStrictlySortedBy};
ghost use Rattle.cell_spec.specs.declared.key.Key.{Key as SpecKey};
ghost use Rattle.cell_spec.specs.Names.{identity_order, key_order, name_order};
ghost use Rattle.chain_topo.specs.Listed.{values_at};
ghost use Rattle.row_spec.specs.Rows.{value_of};
ghost use Rattle.record_store.specs.Stores.{ArePut, ListIsPut, list_in, names_after, names_row, refs_after, refs_row};

use cell_spec::{Key, Names, Ref, Refs, orders_are_by_parts};
use chain_topo::Groups;
use edit_answers::EditAnswers;
use s57_types::{Lnam, RecName};
use shared_table::{Shared, SharedTable};
use std::alloc::{AllocError, Global};

/// The pointers to names and the bearers of identifiers, each in a table. No list is empty.
pub(crate) struct Answers {
    pub(crate) pointers: SharedTable<RecName, Shared<Refs>>,
    pub(crate) bearers: SharedTable<Lnam, Shared<Names>>,
}

impl Drop for Answers {
    fn drop(self) {
        let Answers {
            pointers: _,
            bearers: _,
        } = self;
    }
}

impl Answers {
    /// The same lists, which both share.
    pub(crate) fn share(&self) -> Result<Answers, AllocError>
        ensures { IfOk result (λ answers. answers ≡ self.now) }
    {
        Ok(Answers {
            pointers: self.pointers.share()?,
            bearers: self.bearers.share()?,
        })
    }

    /// The pointers to a name.
    pub(crate) fn refs(&self, name: RecName) -> &[Ref]
        ensures { result.now ≡ list_in (value_of name_order self.now.pointers name) }
    {
        orders_are_by_parts();
        match self.pointers.get(&name) {
            Some(refs) => refs.as_slice(),
            None => &[],
        }
    }

    /// The bearers of an identifier.
    pub(crate) fn bearers(&self, foid: Lnam) -> &[RecName]
        ensures { result.now ≡ list_in (value_of identity_order self.now.bearers foid) }
    {
        orders_are_by_parts();
        match self.bearers.get(&foid) {
            Some(names) => names.as_slice(),
            None => &[],
        }
    }

    /// Puts the pointers to a name.
    pub(crate) fn put_refs(
        &mut self,
        alloc: Global,
        name: RecName,
        refs: Refs,
    ) -> Result<(), AllocError>
        ensures pointers { OnOk result (ListIsPut name_order name refs self.old.pointers self.new.pointers) }
        ensures bearers { self.new.bearers ≡ self.old.bearers }
    {
        orders_are_by_parts();
        // The rows ascend, so that each name has one.
        let _count = self.pointers.len();
        if refs.is_empty() {
            return self.pointers.take(alloc, &name);
        }
        self.pointers.put(alloc, name, Shared::make(alloc, refs)?)
    }

    /// Puts the bearers of an identifier.
    pub(crate) fn put_bearers(
        &mut self,
        alloc: Global,
        foid: Lnam,
        names: Names,
    ) -> Result<(), AllocError>
        ensures bearers { OnOk result (ListIsPut identity_order foid names self.old.bearers self.new.bearers) }
        ensures pointers { self.new.pointers ≡ self.old.pointers }
    {
        orders_are_by_parts();
        // The rows ascend, so that each identifier has one.
        let _count = self.bearers.len();
        if names.is_empty() {
            return self.bearers.take(alloc, &foid);
        }
        self.bearers.put(alloc, foid, Shared::make(alloc, names)?)
    }

    // Puts what edits make of an old list, if the answer to the key is one.
    fn update(
        &mut self,
        alloc: Global,
        old: &Answers,
        edits: &EditAnswers<'_>,
        key: Key,
    ) -> Result<(), AllocError>
        ensures { OnOk result ((keys : List SpecKey)
            → ArePut keys (refs_after edits.now.edits old.now.pointers) (names_after edits.now.edits old.now.bearers)
            old.now.pointers self.old.pointers old.now.bearers self.old.bearers
            → ArePut (keys ++ key ∷ []) (refs_after edits.now.edits old.now.pointers) (names_after edits.now.edits old.now.bearers)
            old.now.pointers self.new.pointers old.now.bearers self.new.bearers) }
    {
        match key {
            Key::Name(_) => Ok(()),
            Key::Refs(name) => {
                let refs = edits.pointers_after(alloc, name, old.refs(name))?;
                self.put_refs(alloc, name, refs)
            }
            Key::Foid(foid) => {
                let names = edits.bearers_after(alloc, foid, old.bearers(foid))?;
                self.put_bearers(alloc, foid, names)
            }
        }
    }

    /// The lists after edits that touch these keys.
    pub(crate) fn updated(
        &self,
        alloc: Global,
        edits: &EditAnswers<'_>,
        keys: &[Key],
    ) -> Result<Answers, AllocError>
        ensures { IfOk result (λ answers. ArePut keys.now (refs_after edits.now.edits self.now.pointers) (names_after edits.now.edits self.now.bearers)
            self.now.pointers answers.pointers self.now.bearers answers.bearers) }
    {
        let mut answers = self.share()?;
        for key in keys {
            answers.update(alloc, self, edits, *key)?;
        }
        Ok(answers)
    }

    /// The lists of these keys, which ascend. All are put at once, which costs far less than one after the other.
    pub(crate) fn filled(
        alloc: Global,
        pointers: &Groups<RecName, Ref>,
        bearers: &Groups<Lnam, RecName>,
        keys: &[Key],
    ) -> Result<Answers, AllocError>
        requires { IsStrictlySortedBy key_order keys.now }
        ensures { IfOk result (λ answers. ArePut keys.now (values_at name_order pointers.now) (values_at identity_order bearers.now)
            [] answers.pointers [] answers.bearers) }
    {
        orders_are_by_parts();
        let mut lists = Lists::make(alloc);
        for key in keys {
            lists.push(alloc, pointers, bearers, *key)?;
        }
        let Lists { refs, names } = lists;
        let pointers = SharedTable::from_ascending(alloc, refs)?;
        let bearers = SharedTable::from_ascending(alloc, names)?;
        Ok(Answers { pointers, bearers })
    }
}

// The lists of keys that ascend, as rows.
#[derive(Drop)]
struct Lists {
    refs: Vec<(RecName, Shared<Refs>)>,
    names: Vec<(Lnam, Shared<Names>)>,
}

impl Lists {
    // No lists.
    fn make(alloc: Global) -> Lists
        ensures refs { result.refs.items ≡ [] }
        ensures names { result.names.items ≡ [] }
    {
        Lists {
            refs: Vec::new(alloc),
            names: Vec::new(alloc),
        }
    }

    // Appends the list of a key, if its answer is one.
    fn push(
        &mut self,
        alloc: Global,
        pointers: &Groups<RecName, Ref>,
        bearers: &Groups<Lnam, RecName>,
        key: Key,
    ) -> Result<(), AllocError>
        ensures refs { OnOk result (self.new.refs.items ≡ self.old.refs.items ++ refs_row (values_at name_order pointers.now) key) }
        ensures names { OnOk result (self.new.names.items ≡ self.old.names.items ++ names_row (values_at identity_order bearers.now) key) }
    {
        orders_are_by_parts();
        match key {
            Key::Name(_) => Ok(()),
            Key::Refs(name) => {
                let refs = Refs::copy_of(alloc, pointers.values_of(&name))?;
                self.refs.push((name, Shared::make(alloc, refs)?))?;
                Ok(())
            }
            Key::Foid(foid) => {
                let names = Names::copy_of(alloc, bearers.values_of(&foid))?;
                self.names.push((foid, Shared::make(alloc, names)?))?;
                Ok(())
            }
        }
    }
}
