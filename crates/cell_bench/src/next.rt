//! The next version of a cell with its indexes, from edits.

ghost use Rattle.std.specs.Prelude.{◌≡◌, ◌+◌, ◌*◌, ◌≤◌, IfOk, List, MatchResult, length, map, sum_by, true};
ghost use Rattle.cell_spec.specs.Edits.{apply_edits, is_applicable, touched_keys};
ghost use Rattle.rule_spec.specs.Affected.{affected_list, change_by, exact_row};
ghost use Rattle.cell_spec.specs.declared.key.Key.{Key as SpecKey};
ghost use Rattle.cell_spec.specs.declared.key.Subject.{Subject as SpecSubject};
ghost use Rattle.finding_laws.specs.Tables.{IsCoveringsOf, IsReadsOf, IsVerdictTable};
ghost use Rattle.history_spec.specs.Steps.{finding_limit};
ghost use Rattle.cell_bench.specs.Verdicts.{total_of};
ghost use Rattle.depend_map.specs.Changes.{after_changes};
ghost use Rattle.cell_bench.specs.Benches.{AreReady, IsNext, IsReachOf};
ghost use Rattle.cell_bench.specs.Limits.{IsFull};
ghost use Rattle.cell_bench.specs.Rejudging.{IsRejudgedBy, reads_anew};
ghost use Rattle.rule_spec.specs.Findings.{finding_total};

use crate::indexed::IndexedCell;
use crate::ready::ReadyRows;
use crate::refusal::{FINDING_LIMIT, PlanRefusal};
use crate::rejudge::{rejudge, rejudge_by};
use crate::rejudged::Rejudged;
use crate::verdicts::Verdicts;
use affected_subjects::{Reach, reach_of};
use answer_laws::formed_edits_find_their_records;
use cell_spec::{Key, Rows, writable_cells_are_readable};
use chain_topo::Steps;
use depend_map::ReadChange;
use edit_sets::EditSet;
use finding_laws::{affected_list_is_set, verdict_tables_are_all};
use history_spec::StateRefusal;
use record_store::RecordStore;
use std::alloc::{AllocError, Global};
use std::sync::ledger::Ledger;
use tile_index::TilePlan;

impl IndexedCell {
    /// The cell after edits that it takes, with its indexes, from rows of all affected subjects, if that has room for its findings.
    ///
    /// An `Err` says that there are too many, or is out of memory.
    pub(crate) fn next_judged(
        &self,
        alloc: Global,
        edits: &EditSet,
        reach: Reach,
        rows: &Rows,
    ) -> Result<IndexedCell, PlanRefusal>
        requires level { edits.now.nall ≡ self.now.head.nall }
        requires taken { is_applicable edits.now.edits self.now ≡ true }
        requires reach { IsReachOf edits.now.edits self.now reach }
        requires rows { rows.now ≡ map (exact_row (apply_edits edits.now.edits self.now)) (affected_list (change_by edits.now.edits self.now)) }
        ensures { MatchResult result (IsNext (apply_edits edits.now.edits self.now)) (IsFull (finding_total (apply_edits edits.now.edits self.now))) }
    {
        edits.known();
        RecordStore::known(&self.store);
        writable_cells_are_readable();
        formed_edits_find_their_records();
        affected_list_is_set();
        let gone = reach.gone.as_slice();
        let rows = rows.as_slice();
        let rejudged = rejudge_by(alloc, &self.store, &self.verdicts, edits, gone, rows)?;
        self.renewed(alloc, edits, reach.tiles, rejudged)
    }

    /// The cell after edits that it takes, with its indexes, if that has room for its findings. What edits can change is judged, but for
    /// what is ready and valid.
    ///
    /// An `Err` says that there are too many, or is out of memory.
    pub(crate) fn next<L: Ledger>(
        &self,
        alloc: Global,
        edits: &EditSet,
        ready: &Rows,
        stale: &[Key],
        steps: &mut Steps<L>,
    ) -> Result<IndexedCell, PlanRefusal>
        requires level { edits.now.nall ≡ self.now.head.nall }
        requires taken { is_applicable edits.now.edits self.now ≡ true }
        requires ready { AreReady self.now edits.now.edits stale.now ready.now }
        ensures next { MatchResult result (IsNext (apply_edits edits.now.edits self.now)) (IsFull (finding_total (apply_edits edits.now.edits self.now))) }
        ensures steps { steps.new ≤ steps.old + (2 * length edits.now.edits + (2 * length (touched_keys edits.now.edits self.now)
            + 4 * sum_by (reads_anew (apply_edits edits.now.edits self.now) stale.now ready.now) (affected_list (change_by edits.now.edits self.now)))) }
    {
        edits.known();
        RecordStore::known(&self.store);
        writable_cells_are_readable();
        formed_edits_find_their_records();
        affected_list_is_set();
        let reach = reach_of(alloc, &self.store, &self.tiles, &self.map, edits, steps)?;
        let ready = ReadyRows::make(alloc, ready, stale, reach.judged.as_slice())?;
        let look = &self.store;
        let rejudged = rejudge(alloc, look, &self.verdicts, edits, &reach, &ready, steps)?;
        self.renewed(alloc, edits, reach.tiles, rejudged)
    }

    // The cell after edits, with their tiles, and with what judging anew made of the findings and read sets.
    fn renewed(
        &self,
        alloc: Global,
        edits: &EditSet,
        tiles: TilePlan,
        rejudged: Rejudged,
    ) -> Result<IndexedCell, PlanRefusal>
        requires level { edits.now.nall ≡ self.now.head.nall }
        requires taken { is_applicable edits.now.edits self.now ≡ true }
        requires tiles { IsCoveringsOf (apply_edits edits.now.edits self.now) tiles }
        requires rejudged { IsRejudgedBy self.now edits.now.edits rejudged }
        ensures { MatchResult result (IsNext (apply_edits edits.now.edits self.now)) (IsFull (finding_total (apply_edits edits.now.edits self.now))) }
    {
        verdict_tables_are_all();
        let (verdicts, changes) = rejudged.into_parts();
        if verdicts.count() as usize > FINDING_LIMIT {
            return Err(PlanRefusal::State(StateRefusal::FindingsFull));
        }
        Ok(self.after(alloc, edits, tiles, verdicts, &changes)?)
    }

    // The cell after edits that it takes, of their tiles, the findings that they leave and the changes of read sets.
    fn after(
        &self,
        alloc: Global,
        edits: &EditSet,
        tiles: TilePlan,
        verdicts: Verdicts,
        changes: &[ReadChange],
    ) -> Result<IndexedCell, AllocError>
        requires level { edits.now.nall ≡ self.now.head.nall }
        requires taken { is_applicable edits.now.edits self.now ≡ true }
        requires tiles { IsCoveringsOf (apply_edits edits.now.edits self.now) tiles }
        requires verdicts { IsVerdictTable (apply_edits edits.now.edits self.now) verdicts }
        requires few { total_of verdicts ≤ finding_limit }
        requires reads { (reads : List (SpecSubject × List SpecKey)) → IsReadsOf self.now reads
            → IsReadsOf (apply_edits edits.now.edits self.now) (after_changes reads changes.now) }
        ensures { IfOk result (λ next. next ≡ apply_edits edits.now.edits self.now) }
    {
        Ok(IndexedCell {
            store: self.store.plan(alloc, edits)?.into_store(),
            tiles: tiles.into_index(),
            map: self.map.plan(alloc, changes)?.into_map(),
            verdicts,
        })
    }
}
