//! The store of a cell, and plans of its changes.

ghost use Rattle.std.specs.Prelude.{◌≡◌, ◌++◌, IfOk, IsOk, OnOk, flat_map, length, true};
ghost use Rattle.cell_spec.specs.Edits.{apply_edits, is_applicable, keys_of_edit, list_of_kind, touched_keys};
ghost use Rattle.cell_spec.specs.Lookup.{all_records};
ghost use Rattle.cell_spec.specs.Writable.{IsWritable};
ghost use Rattle.std.specs.Option.{option_copied};
ghost use Rattle.record_store.specs.Stores.{course_in};

use crate::answers::Answers;
use crate::records::Records;
use crate::walk::Walk;
use answer_laws::{
    edited_answers, edits_keep_a_cell_writable, formed_edits_find_their_records,
    untouched_keys_keep_answers,
};
use cell_spec::{Edit, Key, Keys, Ref, ascending_keys, writable_cells_are_readable};
use chain_topo::{Look, Steps};
use edit_answers::{EditAnswers, push_touched};
use edit_sets::EditSet;
use s57_types::{Cell, Duplicate, Head, Kind, Lnam, Rec, RecName, Vector};
use std::alloc::{AllocError, Global};
use std::marker::Model;
use std::sync::ledger::Ledger;

/// A writable cell with its records by name and in file order, the pointers to each name and the bearers of each identifier. It is seen as
/// the cell. Copies share what they hold, and a change of one of two leaves the other as it is.
pub struct RecordStore {
    pub(crate) records: Records,
    pub(crate) answers: Answers,
}

impl Drop for RecordStore {
    fn drop(self) {
        let RecordStore {
            records: _,
            answers: _,
        } = self;
    }
}

impl Model for RecordStore {
    ghost use Rattle.s57_types.specs.declared.cell.Cell.{Cell as SpecCell};
    ghost use Rattle.record_store.specs.Stores.{IsStore};

    ghost Value = { SpecCell };

    ghost view = { λ s. s.records };

    ghost invariant = { λ s. IsStore s.records s.answers.pointers s.answers.bearers };
}

/// The whole of a store after edits, seen as the cell.
#[derive(Drop)]
pub struct StorePlan {
    next: RecordStore,
}

impl Model for StorePlan {
    ghost use Rattle.s57_types.specs.declared.cell.Cell.{Cell as SpecCell};

    ghost Value = { SpecCell };

    ghost view = { λ p. p.next };
}

impl StorePlan {
    /// The store after the edits. It takes no memory.
    pub fn into_store(self) -> RecordStore
        ensures { result ≡ self }
    {
        self.next
    }
}

impl RecordStore {
    /// What every store keeps: its cell can be written.
    pub fn known(&self)
        ensures { IsWritable self.now }
    {
        let _ = &self.records;
    }

    /// A copy of the cell.
    ///
    /// An `Err` means out of memory.
    pub fn to_cell(&self, alloc: Global) -> Result<Cell, AllocError>
        ensures { IfOk result (λ cell. cell ≡ self.now) }
    {
        self.records.to_cell(alloc)
    }

    /// The records of a kind in file order.
    pub fn walk(&self, kind: Kind) -> Walk<'_>
        ensures { result ≡ list_of_kind kind self.now }
    {
        self.records.walk(kind)
    }

    /// How many records the cell has. The head is none of them.
    pub fn count(&self) -> u32
        ensures { result ≡ length (all_records self.now) }
    {
        self.records.count()
    }

    /// The head of the cell.
    pub fn head(&self) -> &Head
        ensures { result.now ≡ self.now.head }
    {
        self.records.head()
    }

    /// The connected node or edge of a name, if there is one: its pointers and points give the course of a line. No look-up is counted.
    pub fn course(&self, name: RecName) -> Option<&Vector>
        ensures { option_copied result ≡ course_in self.now name }
    {
        if !matches!(name.kind, Kind::Vc | Kind::Ve) {
            return None;
        }
        match self.records.get(name) {
            Some(Rec::V(vector)) => Some(vector),
            Some(Rec::F(_) | Rec::H(_)) | None => None,
        }
    }

    /// The store after edits. It takes all memory that they need, and an `Err` means that there isn't enough.
    pub fn plan(&self, alloc: Global, edits: &EditSet) -> Result<StorePlan, AllocError>
        requires level { edits.now.nall ≡ self.now.head.nall }
        requires taken { is_applicable edits.now.edits self.now ≡ true }
        ensures { IfOk result (λ plan. plan ≡ apply_edits edits.now.edits self.now) }
    {
        edits.known();
        writable_cells_are_readable();
        formed_edits_find_their_records();
        edits_keep_a_cell_writable();
        edited_answers();
        untouched_keys_keep_answers();
        let keys = self.touched(alloc, edits.edits())?;
        let merged = EditAnswers::make(alloc, edits)?;
        let answers = self.answers.updated(alloc, &merged, keys.as_slice())?;
        let records = self.records.share(alloc)?.after(alloc, edits.edits())?;
        let next = RecordStore { records, answers };
        Ok(StorePlan { next })
    }

    // The keys that edits touch, ascending, each once.
    #[tactic(auto, unfolding(cell_spec::specs::Edits::touched_keys))]
    fn touched(&self, alloc: Global, edits: &[Edit]) -> Result<Keys, AllocError>
        ensures { IfOk result (λ keys. keys ≡ touched_keys edits.now self.now) }
    {
        let mut keys = Vec::new(alloc);
        self.push_all(&mut keys, edits)?;
        Ok(ascending_keys(keys))
    }

    // Appends the keys that each of the edits touches.
    fn push_all(&self, keys: &mut Vec<Key>, edits: &[Edit]) -> Result<(), AllocError>
        ensures { OnOk result (keys.new.items ≡ keys.old.items ++ flat_map (keys_of_edit self.now) edits.now) }
    {
        for edit in edits {
            push_touched(keys, self.records.get(edit.name()), edit)?;
        }
        Ok(())
    }

    /// Takes the memory that installing a plan needs: none, since the plan has taken it.
    pub fn reserve(&mut self, _plan: &StorePlan) -> Result<(), AllocError>
        ensures ok { IsOk result }
        ensures same { self.new ≡ self.old }
    {
        Ok(())
    }

    /// Puts the store of a plan in this one's place. It takes no memory.
    pub fn install(&mut self, plan: StorePlan)
        ensures { self.new ≡ plan }
    {
        *self = plan.next;
    }
}

impl Duplicate for RecordStore {
    /// The same store. It counts what both share, and copies no record.
    fn copy(&self, alloc: Global) -> Result<RecordStore, AllocError> {
        Ok(RecordStore {
            records: self.records.share(alloc)?,
            answers: self.answers.share()?,
        })
    }
}

impl Look for RecordStore {
    ghost cell = { λ store. store };

    fn known(&self) {
        writable_cells_are_readable();
        let _ = &self.records;
    }

    fn get<L: Ledger>(&self, name: RecName, steps: &mut Steps<L>) -> Option<&Rec> {
        steps.tick();
        self.records.get(name)
    }

    fn refs<L: Ledger>(&self, name: RecName, steps: &mut Steps<L>) -> &[Ref] {
        steps.tick();
        self.answers.refs(name)
    }

    fn bearers<L: Ledger>(&self, foid: Lnam, steps: &mut Steps<L>) -> &[RecName] {
        steps.tick();
        self.answers.bearers(foid)
    }
}
