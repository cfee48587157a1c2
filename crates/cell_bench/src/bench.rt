//! A cell with all findings of it.

ghost use Rattle.std.specs.Prelude.{◌≡◌, ◌≤◌, IfOk, true};
ghost use Rattle.cell_spec.specs.Edits.{find_their_records};
ghost use Rattle.cell_spec.specs.Writable.{IsWritable};
ghost use Rattle.history_spec.specs.Steps.{finding_limit};
ghost use Rattle.rule_spec.specs.Affected.{affected_list, change_by};
ghost use Rattle.rule_spec.specs.Findings.{all_findings, finding_total};

use crate::indexed::IndexedCell;
use affected_subjects::affected_of;
use cell_spec::{Findings, Subject, Subjects};
use edit_sets::EditSet;
use record_store::RecordStore;
use s57_types::{Cell, Duplicate, Head};
use shared_table::{Shared, SharedTable};
use std::alloc::{AllocError, Global};
use std::marker::Model;

/// A writable cell with its findings, of which there are at most 262,144, and with what tells which of them edits can change. It is seen
/// as the cell. A copy is a count.
pub struct Bench {
    pub(crate) indexed: Shared<IndexedCell>,
}

impl Drop for Bench {
    fn drop(self) {
        let Bench { indexed: _ } = self;
    }
}

impl Model for Bench {
    ghost use Rattle.s57_types.specs.declared.cell.Cell.{Cell as SpecCell};

    ghost Value = { SpecCell };

    ghost view = { λ b. b.indexed };
}

impl Bench {
    /// The bench of a cell with its indexes. An `Err` is out of memory.
    pub(crate) fn make(alloc: Global, indexed: IndexedCell) -> Result<Bench, AllocError>
        ensures { IfOk result (λ bench. bench ≡ indexed) }
    {
        let indexed = Shared::make(alloc, indexed)?;
        Ok(Bench { indexed })
    }

    /// What every bench keeps: its cell can be written, and has at most 262,144 findings.
    pub fn known(&self)
        ensures writable { IsWritable self.now }
        ensures few { finding_total self.now ≤ finding_limit }
    {
        self.indexed.known();
    }

    /// The head of the cell.
    pub fn head(&self) -> &Head
        ensures { result.now ≡ self.now.head }
    {
        self.store().head()
    }

    /// The store of the cell, to look into.
    pub fn store(&self) -> &RecordStore
        ensures { result.now ≡ self.now }
    {
        self.indexed.store()
    }

    /// All findings of the cell: for each subject that has some, those about it.
    pub fn findings(&self) -> &SharedTable<Subject, Shared<Findings>>
        ensures { result.now ≡ all_findings self.now }
    {
        self.indexed.findings()
    }

    /// How many findings the cell has.
    pub fn finding_count(&self) -> u32
        ensures { result ≡ finding_total self.now }
    {
        self.indexed.finding_count()
    }

    /// The affected subjects of the cell that edits leave, in the order in which they are looked at first.
    ///
    /// An `Err` is out of memory.
    pub fn affected(&self, alloc: Global, edits: &EditSet) -> Result<Subjects, AllocError>
        requires level { edits.now.nall ≡ self.now.head.nall }
        requires found { find_their_records edits.now.edits self.now ≡ true }
        ensures { IfOk result (λ list. list ≡ affected_list (change_by edits.now.edits self.now)) }
    {
        affected_of(
            alloc,
            self.store(),
            self.indexed.tiles(),
            self.indexed.reads(),
            edits,
        )
    }

    /// A copy of the cell, for export and for texts. An `Err` is out of memory.
    pub fn to_cell(&self, alloc: Global) -> Result<Cell, AllocError>
        ensures { IfOk result (λ cell. cell ≡ self.now) }
    {
        self.store().to_cell(alloc)
    }
}

impl Duplicate for Bench {
    /// The same bench, shared. An `Err` says that it can't be counted any more.
    fn copy(&self, alloc: Global) -> Result<Bench, AllocError> {
        Ok(Bench {
            indexed: self.indexed.copy(alloc)?,
        })
    }
}
