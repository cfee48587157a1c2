//! Pointers and bearers after edits, for the keys that they touch.

ghost use Rattle.std.specs.Prelude.{◌+◌, ◌≤◌, [], ◌∷◌, ◌++◌, IfOk, List, OnOk, count_by};
ghost use Rattle.cell_spec.specs.declared.key.Key.{Key as SpecKey};
ghost use Rattle.cell_overlay.specs.Laid.{AreMerged, has_a_list};

use cell_spec::{Key, Names, Refs, orders_are_by_parts};
use chain_topo::{Look, Steps};
use edit_answers::EditAnswers;
use s57_types::{Lnam, RecName};
use shared_table::{Shared, SharedTable};
use std::alloc::{AllocError, Global};
use std::sync::ledger::Ledger;

/// The pointers to names and the bearers of identifiers, in tables by name and by identifier.
pub(crate) struct Merged {
    pub(crate) pointers: SharedTable<RecName, Shared<Refs>>,
    pub(crate) bearers: SharedTable<Lnam, Shared<Names>>,
}

impl Drop for Merged {
    fn drop(self) {
        let Merged {
            pointers: _,
            bearers: _,
        } = self;
    }
}

impl Merged {
    // Puts what the edits make of the base's answer to a key. A name's record needs no list.
    fn put<B: Look, L: Ledger>(
        &mut self,
        alloc: Global,
        base: &B,
        edits: &EditAnswers<'_>,
        key: Key,
        steps: &mut Steps<L>,
    ) -> Result<(), AllocError>
        ensures merged { OnOk result ((keys : List SpecKey) → AreMerged keys edits.now.edits (B.cell base.now) self.old.pointers self.old.bearers
            → AreMerged (keys ++ key ∷ []) edits.now.edits (B.cell base.now) self.new.pointers self.new.bearers) }
        ensures steps { steps.new ≤ steps.old + count_by has_a_list (key ∷ []) }
    {
        orders_are_by_parts();
        match key {
            Key::Name(_) => Ok(()),
            Key::Refs(name) => {
                let refs = edits.pointers_after(alloc, name, base.refs(name, steps))?;
                self.pointers.put(alloc, name, Shared::make(alloc, refs)?)
            }
            Key::Foid(foid) => {
                let names = edits.bearers_after(alloc, foid, base.bearers(foid, steps))?;
                self.bearers.put(alloc, foid, Shared::make(alloc, names)?)
            }
        }
    }

    /// The lists of these keys. The base is asked for each list once.
    pub(crate) fn make<B: Look, L: Ledger>(
        alloc: Global,
        base: &B,
        edits: &EditAnswers<'_>,
        keys: &[Key],
        steps: &mut Steps<L>,
    ) -> Result<Merged, AllocError>
        ensures merged { IfOk result (λ merged. AreMerged keys.now edits.now.edits (B.cell base.now) merged.pointers merged.bearers) }
        ensures steps { steps.new ≤ steps.old + count_by has_a_list keys.now }
    {
        let mut merged = Merged {
            pointers: SharedTable::make(),
            bearers: SharedTable::make(),
        };
        for key in keys {
            merged.put(alloc, base, edits, *key, steps)?;
        }
        Ok(merged)
    }
}
