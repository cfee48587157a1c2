//! Judging anew what edits can change.

ghost use Rattle.std.specs.Prelude.{◌≡◌, ◌+◌, ◌*◌, ◌≤◌, All, IfErr, IsTrue, MatchResult, OnOk, length, map, sum_by};
ghost use Rattle.cell_spec.specs.Edits.{apply_edits, touched_keys};
ghost use Rattle.rule_spec.specs.{Affected.{affected_list, change_by, exact_row}, Findings.{findings_of_subject, is_subject}};
ghost use Rattle.history_spec.specs.Steps.{finding_limit};
ghost use Rattle.affected_subjects.specs.Reached.{gone_list};
ghost use Rattle.answer_laws.specs.EditedAnswers.{FindTheirRecords};
ghost use Rattle.finding_laws.specs.Tables.{IsVerdictTable};
ghost use Rattle.cell_bench.specs.{Limits.{IsFull}, Ready.{AreExact, AreOf, IsAt}};
ghost use Rattle.cell_bench.specs.{Rejudging.{IsRejudgedBy, fresh_among, fresh_in, judged_in, reads_anew, with_row_of, with_rows}, Verdicts.{total_of}};

use crate::ready::ReadyRows;
use crate::refusal::PlanRefusal;
use crate::rejudged::Rejudged;
use crate::verdicts::Verdicts;
use affected_subjects::Reach;
use answer_laws::untouched_keys_keep_answers;
use cell_overlay::Overlay;
use cell_spec::{Row, Subject};
use chain_topo::{Look, Steps};
use depend_map::changes_set_their_subjects;
use edit_sets::EditSet;
use finding_laws::{
    affected_subjects_are_considered, unaffected_singles_keep_reads,
    unaffected_subjects_keep_findings,
};
use record_store::RecordStore;
use std::alloc::Global;
use std::sync::ledger::Ledger;
use subject_rows::row_of;

// Enters the row of the subject at a place: a ready one that is valid, or else as it is judged.
fn enter_fresh<B: Look, L: Ledger>(
    alloc: Global,
    look: &B,
    ready: &ReadyRows<'_>,
    place: usize,
    subject: Subject,
    rejudged: &mut Rejudged,
    steps: &mut Steps<L>,
) -> Result<(), PlanRefusal>
    requires subject { IsTrue (is_subject (B.cell look.now) subject) }
    requires there { IsAt ready.now place subject }
    requires exact { AreExact (B.cell look.now) ready.now.stale ready.now.rows }
    ensures ok { OnOk result (rejudged.new ≡ with_row_of rejudged.old (exact_row (B.cell look.now) subject)) }
    ensures err { IfErr result (IsFull (rejudged.old.fresh + length (findings_of_subject (B.cell look.now) subject))) }
    ensures steps { steps.new ≤ steps.old + 4 * reads_anew (B.cell look.now) ready.now.stale ready.now.rows subject }
{
    match ready.get(place, subject) {
        Some(row) => rejudged.enter_copy(alloc, row),
        None => {
            let row = row_of(alloc, look, subject, steps)?;
            rejudged.enter(alloc, row)
        }
    }
}

/// Judges subjects of a cell and enters their findings and read sets. What is ready and valid isn't judged again.
///
/// An `Err` says that there are more fresh findings than the cell may have, or is out of memory.
pub(crate) fn judge_all<B: Look, L: Ledger>(
    alloc: Global,
    look: &B,
    ready: &ReadyRows<'_>,
    judged: &[Subject],
    rejudged: &mut Rejudged,
    steps: &mut Steps<L>,
) -> Result<(), PlanRefusal>
    requires subjects { All (λ s. IsTrue (is_subject (B.cell look.now) s)) judged.now }
    requires ready { AreOf judged.now ready.now }
    requires exact { AreExact (B.cell look.now) ready.now.stale ready.now.rows }
    ensures ok { OnOk result (rejudged.new ≡ judged_in (B.cell look.now) rejudged.old judged.now) }
    ensures err { IfErr result (IsFull (rejudged.old.fresh + fresh_in (B.cell look.now) judged.now)) }
    ensures steps { steps.new ≤ steps.old + 4 * sum_by (reads_anew (B.cell look.now) ready.now.stale ready.now.rows) judged.now }
{
    for (place, subject) in judged.iter().enumerate() {
        enter_fresh(alloc, look, ready, place, *subject, rejudged, steps)?;
    }
    Ok(())
}

/// What judging anew makes of the findings of a cell and of its read sets: what edits reach and the edited cell hasn't goes, and their
/// affected subjects are judged in it.
///
/// An `Err` says that there are more fresh findings than the cell may have, or is out of memory.
pub(crate) fn rejudge<L: Ledger>(
    alloc: Global,
    store: &RecordStore,
    verdicts: &Verdicts,
    edits: &EditSet,
    reach: &Reach,
    ready: &ReadyRows<'_>,
    steps: &mut Steps<L>,
) -> Result<Rejudged, PlanRefusal>
    requires level { edits.now.nall ≡ store.now.head.nall }
    requires found { FindTheirRecords edits.now.edits store.now }
    requires verdicts { IsVerdictTable store.now verdicts.now }
    requires few { total_of verdicts.now ≤ finding_limit }
    requires touched { reach.now.touched ≡ touched_keys edits.now.edits store.now }
    requires gone { reach.now.gone ≡ gone_list (change_by edits.now.edits store.now) }
    requires judged { reach.now.judged ≡ affected_list (change_by edits.now.edits store.now) }
    requires ready { AreOf reach.now.judged ready.now }
    requires exact { AreExact (apply_edits edits.now.edits store.now) ready.now.stale ready.now.rows }
    ensures rejudged { MatchResult result (IsRejudgedBy store.now edits.now.edits)
        (IsFull (fresh_in (apply_edits edits.now.edits store.now) (affected_list (change_by edits.now.edits store.now)))) }
    ensures steps { steps.new ≤ steps.old + (length edits.now.edits + (length (touched_keys edits.now.edits store.now)
        + 4 * sum_by (reads_anew (apply_edits edits.now.edits store.now) ready.now.stale ready.now.rows)
        (affected_list (change_by edits.now.edits store.now)))) }
{
    RecordStore::known(store);
    changes_set_their_subjects();
    untouched_keys_keep_answers();
    unaffected_subjects_keep_findings();
    unaffected_singles_keep_reads();
    affected_subjects_are_considered();
    let touched = reach.touched.as_slice();
    let over = Overlay::over_keys(alloc, store, edits, touched, steps)?;
    let mut rejudged = Rejudged::start(alloc, verdicts)?;
    rejudged.forget_all(alloc, reach.gone.as_slice())?;
    let judged = reach.judged.as_slice();
    judge_all(alloc, &over, ready, judged, &mut rejudged, steps)?;
    Ok(rejudged)
}

/// Enters the findings and read sets of rows.
///
/// An `Err` says that there are more fresh findings than the cell may have, or is out of memory.
fn enter_all(alloc: Global, rows: &[Row], rejudged: &mut Rejudged) -> Result<(), PlanRefusal>
    ensures ok { OnOk result (rejudged.new ≡ with_rows rejudged.old rows.now) }
    ensures err { IfErr result (IsFull (rejudged.old.fresh + fresh_among rows.now)) }
{
    for row in rows {
        rejudged.enter_copy(alloc, row)?;
    }
    Ok(())
}

/// The same as judging anew, from rows of all affected subjects: nothing is judged.
///
/// An `Err` says that there are more fresh findings than the cell may have, or is out of memory.
pub(crate) fn rejudge_by(
    alloc: Global,
    store: &RecordStore,
    verdicts: &Verdicts,
    edits: &EditSet,
    gone: &[Subject],
    rows: &[Row],
) -> Result<Rejudged, PlanRefusal>
    requires found { FindTheirRecords edits.now.edits store.now }
    requires verdicts { IsVerdictTable store.now verdicts.now }
    requires few { total_of verdicts.now ≤ finding_limit }
    requires gone { gone.now ≡ gone_list (change_by edits.now.edits store.now) }
    requires rows { rows.now ≡ map (exact_row (apply_edits edits.now.edits store.now)) (affected_list (change_by edits.now.edits store.now)) }
    ensures { MatchResult result (IsRejudgedBy store.now edits.now.edits)
        (IsFull (fresh_in (apply_edits edits.now.edits store.now) (affected_list (change_by edits.now.edits store.now)))) }
{
    changes_set_their_subjects();
    untouched_keys_keep_answers();
    unaffected_subjects_keep_findings();
    unaffected_singles_keep_reads();
    affected_subjects_are_considered();
    let mut rejudged = Rejudged::start(alloc, verdicts)?;
    rejudged.forget_all(alloc, gone)?;
    enter_all(alloc, rows, &mut rejudged)?;
    Ok(rejudged)
}
