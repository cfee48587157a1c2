//! A cell with its indexes.

ghost use Rattle.std.specs.Prelude.{◌≡◌, ◌≤◌};
ghost use Rattle.cell_spec.specs.Writable.{IsWritable};
ghost use Rattle.finding_laws.specs.Tables.{IsCoveringsOf, IsReadsOf};
ghost use Rattle.history_spec.specs.Steps.{finding_limit};
ghost use Rattle.rule_spec.specs.Findings.{all_findings, finding_total};

use crate::verdicts::Verdicts;
use cell_spec::{Findings, Subject};
use depend_map::DependMap;
use finding_laws::verdict_tables_are_all;
use record_store::RecordStore;
use shared_table::{Shared, SharedTable};
use std::marker::Model;
use tile_index::TileIndex;

/// A writable cell with its findings, of which there are at most 262,144, and with what tells which of them edits can change: the tiles
/// under its nodes and edges, and the keys that its subjects read. It is seen as the cell. It stands behind the count of a bench, and
/// nothing else drops it.
#[derive(Drop)]
pub(crate) struct IndexedCell {
    pub(crate) store: RecordStore,
    pub(crate) tiles: TileIndex,
    pub(crate) map: DependMap,
    pub(crate) verdicts: Verdicts,
}

impl Model for IndexedCell {
    ghost use Rattle.s57_types.specs.declared.cell.Cell.{Cell as SpecCell};
    ghost use Rattle.cell_bench.specs.Benches.{IsBench};

    ghost Value = { SpecCell };

    ghost view = { λ b. b.store };

    ghost invariant = { λ b. IsBench b.store b.tiles b.map b.verdicts };
}

impl IndexedCell {
    /// What is kept: the cell can be written, and has at most 262,144 findings.
    pub(crate) fn known(&self)
        ensures writable { IsWritable self.now }
        ensures few { finding_total self.now ≤ finding_limit }
    {
        verdict_tables_are_all();
        RecordStore::known(&self.store);
    }

    /// The store of the cell, to look into.
    pub(crate) fn store(&self) -> &RecordStore
        ensures { result.now ≡ self.now }
    {
        &self.store
    }

    /// All findings of the cell: for each subject that has some, those about it.
    pub(crate) fn findings(&self) -> &SharedTable<Subject, Shared<Findings>>
        ensures { result.now ≡ all_findings self.now }
    {
        verdict_tables_are_all();
        self.verdicts.table()
    }

    /// How many findings the cell has.
    pub(crate) fn finding_count(&self) -> u32
        ensures { result ≡ finding_total self.now }
    {
        verdict_tables_are_all();
        self.verdicts.count()
    }

    /// The tiles under the cell's nodes and edges.
    pub(crate) fn tiles(&self) -> &TileIndex
        ensures { IsCoveringsOf self.now result.now }
    {
        &self.tiles
    }

    /// The keys that the cell's subjects read.
    pub(crate) fn reads(&self) -> &DependMap
        ensures { IsReadsOf self.now result.now }
    {
        &self.map
    }
}
