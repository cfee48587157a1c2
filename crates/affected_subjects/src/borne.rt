//! Which of the touched identifiers features bear after edits.

ghost use Rattle.std.specs.Prelude.{◌≡◌, ◌+◌, ◌≤◌, ◌∷◌, ◌++◌, [], IfOk, List, OnOk, length};
ghost use Rattle.cell_spec.specs.declared.key.Key.{Key as SpecKey};
ghost use Rattle.affected_subjects.specs.EditedCells.{KnowsBearers, is_borne_after as spec_is_borne};

use cell_spec::{Key, orders_are_by_parts};
use chain_topo::{Look, Steps};
use edit_answers::EditAnswers;
use record_store::RecordStore;
use s57_types::Lnam;
use shared_table::SharedTable;
use std::alloc::{AllocError, Global};
use std::sync::ledger::Ledger;

/// Identifiers, and whether a feature bears each.
pub(crate) type Borne = SharedTable<Lnam, bool>;

// Whether a feature bears an identifier after edits. The store is asked for the bearers.
fn is_borne_after<L: Ledger>(
    store: &RecordStore,
    edits: &EditAnswers<'_>,
    foid: Lnam,
    steps: &mut Steps<L>,
) -> bool
    ensures borne { result ≡ spec_is_borne edits.now.edits store.now foid }
    ensures steps { steps.new ≤ steps.old + 1 }
{
    edits.is_borne_after(foid, store.bearers(foid, steps))
}

// Notes of a key's identifier whether a feature bears it after edits. Keys of names have none.
fn note<L: Ledger>(
    alloc: Global,
    borne: &mut Borne,
    store: &RecordStore,
    edits: &EditAnswers<'_>,
    key: Key,
    steps: &mut Steps<L>,
) -> Result<(), AllocError>
    ensures known { OnOk result ((keys : List SpecKey) → KnowsBearers keys edits.now.edits store.now borne.old
        → KnowsBearers (keys ++ key ∷ []) edits.now.edits store.now borne.new) }
    ensures steps { steps.new ≤ steps.old + 1 }
{
    orders_are_by_parts();
    match key {
        Key::Name(_) | Key::Refs(_) => Ok(()),
        Key::Foid(foid) => {
            let stays = is_borne_after(store, edits, foid, steps);
            borne.put(alloc, foid, stays)
        }
    }
}

/// Of each identifier whose key is among some, whether a feature bears it after edits. It looks up the bearers of each.
pub(crate) fn borne_after<L: Ledger>(
    alloc: Global,
    store: &RecordStore,
    edits: &EditAnswers<'_>,
    keys: &[Key],
    steps: &mut Steps<L>,
) -> Result<Borne, AllocError>
    ensures known { IfOk result (λ borne. KnowsBearers keys.now edits.now.edits store.now borne) }
    ensures steps { steps.new ≤ steps.old + length keys.now }
{
    let mut borne = SharedTable::make();
    for key in keys {
        note(alloc, &mut borne, store, edits, *key, steps)?;
    }
    Ok(borne)
}
