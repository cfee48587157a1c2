//! The bench of a whole cell.

ghost use Rattle.std.specs.Prelude.{◌≡◌, ◌≤◌, ◌||◌, All, IfOk, IsTrue, MatchResult, map};
ghost use Rattle.cell_spec.specs.{Writable.{IsWritable}, Ascending.{ascending}, Names.{subject_order}};
ghost use Rattle.history_spec.specs.Steps.{finding_limit};
ghost use Rattle.finding_laws.specs.Tables.{IsReadsOf, IsVerdictTable};
ghost use Rattle.cell_findings.specs.AllFindings.{IsAllOf};
ghost use Rattle.cell_bench.specs.{Benches.{IsLoadRefusal, IsLoaded}, Singles.{reads_row, singles_in}, Verdicts.{total_of}};
ghost use Rattle.rule_spec.specs.{Affected.{is_single}, Findings.{is_subject}};

use crate::bench::Bench;
use crate::indexed::IndexedCell;
use crate::refusal::FINDING_LIMIT;
use crate::singles::{reads_row, singles_of};
use crate::table::rows_of;
use crate::verdicts::Verdicts;
use cell_findings::{Findings as FlatFindings, LoadRefusal, find_all, names_in, tiles_of};
use cell_spec::{Keys, Subject, writable_cells_are_readable};
use chain_topo::{ListLook, Steps};
use depend_map::DependMap;
use finding_laws::listed_tables_are_right;
use record_store::RecordStore;
use s57_types::Cell;
use std::alloc::{AllocError, Global};
use std::sync::ledger::Ledger;

impl Bench {
    /// The bench of a writable cell.
    ///
    /// An `Err` says that the cell has more findings than the limit, or is out of memory.
    pub fn load<L: Ledger>(
        alloc: Global,
        cell: Cell,
        steps: &mut Steps<L>,
    ) -> Result<Bench, LoadRefusal>
        requires { IsWritable cell }
        ensures { MatchResult result (IsLoaded cell) (IsLoadRefusal cell) }
    {
        let findings = find_all(alloc, &cell, FINDING_LIMIT, steps)?;
        let reads = reads_of(alloc, &cell, steps)?;
        Ok(Bench::of_judged(alloc, cell, &findings, reads, steps)?)
    }

    /// The bench of a writable cell that is judged already: with all its findings, and with the read set of each of its subjects but the
    /// pairs, in the order of subjects.
    ///
    /// An `Err` means out of memory.
    pub fn of_judged<L: Ledger>(
        alloc: Global,
        cell: Cell,
        findings: &FlatFindings,
        reads: Vec<(Subject, Keys)>,
        steps: &mut Steps<L>,
    ) -> Result<Bench, AllocError>
        requires writable { IsWritable cell }
        requires findings { IsAllOf cell finding_limit findings.now }
        requires reads { reads.items ≡ map (reads_row cell) (ascending subject_order (singles_in cell)) }
        ensures { IfOk result (IsLoaded cell) }
    {
        let verdicts = verdicts_of(alloc, &cell, findings)?;
        let indexed = IndexedCell::of(alloc, cell, verdicts, reads, steps)?;
        Bench::make(alloc, indexed)
    }
}

impl IndexedCell {
    // A writable cell with its findings and its read sets, indexed.
    fn of<L: Ledger>(
        alloc: Global,
        cell: Cell,
        verdicts: Verdicts,
        reads: Vec<(Subject, Keys)>,
        steps: &mut Steps<L>,
    ) -> Result<IndexedCell, AllocError>
        requires writable { IsWritable cell }
        requires verdicts { IsVerdictTable cell verdicts }
        requires few { total_of verdicts ≤ finding_limit }
        requires reads { reads.items ≡ map (reads_row cell) (ascending subject_order (singles_in cell)) }
        ensures { IfOk result (λ indexed. indexed ≡ cell) }
    {
        let names = names_in(alloc, &cell)?;
        let store = RecordStore::load(alloc, cell)?;
        let tiles = tiles_of(alloc, &store, names.as_slice(), steps)?;
        let map = readers_of(alloc, &store, reads)?;
        Ok(IndexedCell {
            store,
            tiles,
            map,
            verdicts,
        })
    }
}

// The findings of a cell by their subjects.
fn verdicts_of(alloc: Global, cell: &Cell, findings: &FlatFindings) -> Result<Verdicts, AllocError>
    requires { IsAllOf cell.now finding_limit findings.now }
    ensures verdicts { IfOk result (λ verdicts. IsVerdictTable cell.now verdicts) }
    ensures few { IfOk result (λ verdicts. total_of verdicts ≤ finding_limit) }
{
    listed_tables_are_right();
    let rows = rows_of(alloc, findings.as_slice())?;
    let verdicts = Verdicts::of_rows(alloc, rows, findings.len() as u32)?;
    Ok(verdicts)
}

// Subjects with the keys that they read.
fn rows_read<L: Ledger>(
    alloc: Global,
    look: &ListLook,
    subjects: &[Subject],
    steps: &mut Steps<L>,
) -> Result<Vec<(Subject, Keys)>, AllocError>
    requires { All (λ s. IsTrue (is_single s || is_subject look.now s)) subjects.now }
    ensures { IfOk result (λ rows. rows.items ≡ map (reads_row look.now) subjects.now) }
{
    let mut rows = Vec::with_capacity(alloc, subjects.len())?;
    for subject in subjects {
        rows.push(reads_row(alloc, look, *subject, steps)?)?;
    }
    Ok(rows)
}

// The read sets of a cell's records, sides and identifiers, which ascend. They are made of lists, since looking up in the tables of a store
// costs more.
fn reads_of<L: Ledger>(
    alloc: Global,
    cell: &Cell,
    steps: &mut Steps<L>,
) -> Result<Vec<(Subject, Keys)>, AllocError>
    requires { IsWritable cell.now }
    ensures { IfOk result (λ rows. rows.items ≡ map (reads_row cell.now) (ascending subject_order (singles_in cell.now))) }
{
    writable_cells_are_readable();
    let look = ListLook::make(alloc, cell)?;
    let subjects = singles_of(alloc, cell)?;
    rows_read(alloc, &look, &subjects, steps)
}

// Who reads what: all at once, since one put after the other costs more than judging does.
fn readers_of(
    alloc: Global,
    store: &RecordStore,
    reads: Vec<(Subject, Keys)>,
) -> Result<DependMap, AllocError>
    requires { reads.items ≡ map (reads_row store.now) (ascending subject_order (singles_in store.now)) }
    ensures { IfOk result (λ map. IsReadsOf store.now map) }
{
    RecordStore::known(store);
    let map = DependMap::from_rows(alloc, reads)?;
    Ok(map)
}
