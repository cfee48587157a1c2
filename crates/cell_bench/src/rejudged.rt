//! What judging subjects anew makes of the findings and of the read sets.

ghost use Rattle.std.specs.Prelude.{◌≡◌, ◌+◌, ◌++◌, ◌≤◌, IfErr, IfOk, OnOk, length, true};
ghost use Rattle.history_spec.specs.Steps.{finding_limit};
ghost use Rattle.cell_bench.specs.Limits.{IsFull};
ghost use Rattle.cell_bench.specs.Rejudging.{change_of, unchanged, with_change, with_row_of, without_all};
ghost use Rattle.cell_bench.specs.Verdicts.{total_of};

use crate::refusal::{FINDING_LIMIT, PlanRefusal};
use crate::verdicts::Verdicts;
use cell_spec::{Findings, Keys, Row, Subject};
use depend_map::ReadChange;
use history_spec::StateRefusal;
use s57_types::Duplicate;
use std::alloc::{AllocError, Global};
use std::marker::Model;

/// For how many changes of read sets there is room at first: few edits of one record make more.
const USUAL_CHANGES: usize = 16;

/// The findings so far, the changes of read sets so far, and how many of the findings are fresh.
pub(crate) struct Rejudged {
    verdicts: Verdicts,
    changes: Vec<ReadChange>,
    fresh: u32,
}

impl Drop for Rejudged {
    fn drop(self) {
        let Rejudged {
            verdicts: _,
            changes: _,
            fresh: _,
        } = self;
    }
}

impl Model for Rejudged {
    ghost use Rattle.std.specs.Prelude.{◌+◌, ◌≤◌};
    ghost use Rattle.history_spec.specs.Steps.{finding_limit};
    ghost use Rattle.cell_bench.specs.Rejudging.{Rejudging};
    ghost use Rattle.cell_bench.specs.Verdicts.{total_of};

    ghost Value = { Rejudging };

    ghost view = { λ r. record { rows = r.verdicts; changes = r.changes.items; fresh = r.fresh } };

    ghost invariant = { λ r. (total_of r.verdicts ≤ finding_limit + r.fresh) × (r.fresh ≤ finding_limit) };
}

impl Rejudged {
    /// These findings, before anything is judged.
    pub(crate) fn start(alloc: Global, verdicts: &Verdicts) -> Result<Rejudged, AllocError>
        requires { total_of verdicts.now ≤ finding_limit }
        ensures { IfOk result (λ rejudged. rejudged ≡ unchanged verdicts.now) }
    {
        Ok(Rejudged {
            verdicts: verdicts.share()?,
            changes: Vec::with_capacity(alloc, USUAL_CHANGES)?,
            fresh: 0,
        })
    }

    // How many more findings may be fresh.
    fn room(&self) -> usize
        ensures { result + self.now.fresh ≡ finding_limit }
    {
        FINDING_LIMIT - self.fresh as usize
    }

    // Gives a subject these findings and these reads, or takes out those that it has.
    fn give(
        &mut self,
        alloc: Global,
        subject: Subject,
        findings: Findings,
        reads: Option<Keys>,
    ) -> Result<(), AllocError>
        requires { self.old.fresh + length findings ≤ finding_limit }
        ensures { OnOk result (self.new ≡ with_change self.old subject findings reads) }
    {
        let count = findings.len() as u32;
        self.verdicts.put(alloc, subject, findings)?;
        self.fresh += count;
        push_change(&mut self.changes, subject, reads)
    }

    /// Takes out what subjects have, which are none of the edited cell.
    pub(crate) fn forget_all(&mut self, alloc: Global, gone: &[Subject]) -> Result<(), AllocError>
        ensures { OnOk result (self.new ≡ without_all self.old gone.now) }
    {
        for subject in gone {
            // (That fresh findings are within the limit is known where the room for more is asked.)
            let _room = self.room();
            self.give(alloc, *subject, Findings::make(alloc), None)?;
        }
        Ok(())
    }

    // Whether a row changes nothing, as those of most pairs: one without findings, which had none. What a pair reads isn't kept.
    fn is_unchanged_by(&self, row: &Row) -> bool
        ensures { result ≡ true → with_row_of self.now row.now ≡ self.now }
    {
        matches!(row.subject, Subject::Pair(..))
            && row.findings.is_empty()
            && self.verdicts.lacks(&row.subject)
    }

    /// Gives a subject what its row says.
    ///
    /// An `Err` says that there are more fresh findings than the cell may have, or is out of memory.
    pub(crate) fn enter(&mut self, alloc: Global, row: Row) -> Result<(), PlanRefusal>
        ensures ok { OnOk result (self.new ≡ with_row_of self.old row) }
        ensures err { IfErr result (IsFull (self.old.fresh + length row.findings)) }
    {
        if self.is_unchanged_by(&row) {
            return Ok(());
        }
        let Row {
            subject,
            findings,
            reads,
        } = row;
        if findings.len() > self.room() {
            return Err(PlanRefusal::State(StateRefusal::FindingsFull));
        }
        self.give(alloc, subject, findings, Some(reads))?;
        Ok(())
    }

    /// The same of a row that stays where it is: only one that changes something is copied.
    pub(crate) fn enter_copy(&mut self, alloc: Global, row: &Row) -> Result<(), PlanRefusal>
        ensures ok { OnOk result (self.new ≡ with_row_of self.old row.now) }
        ensures err { IfErr result (IsFull (self.old.fresh + length row.now.findings)) }
    {
        if self.is_unchanged_by(row) {
            return Ok(());
        }
        self.enter(alloc, copy_of(alloc, row)?)
    }

    /// The findings, and the changes of read sets.
    pub(crate) fn into_parts(self) -> (Verdicts, Vec<ReadChange>)
        ensures verdicts { result.0 ≡ self.rows }
        ensures changes { result.1.items ≡ self.changes }
    {
        let Rejudged {
            verdicts,
            changes,
            fresh: _,
        } = self;
        (verdicts, changes)
    }
}

// Appends the change of what a subject reads. There is none for a pair.
fn push_change(
    changes: &mut Vec<ReadChange>,
    subject: Subject,
    reads: Option<Keys>,
) -> Result<(), AllocError>
    ensures { OnOk result (changes.new.items ≡ changes.old.items ++ change_of subject reads) }
{
    if let Subject::Pair(..) = subject {
        return Ok(());
    }
    changes.push(ReadChange { subject, reads })?;
    Ok(())
}

// A copy of a row. It stays a call, since most rows change nothing and aren't copied.
#[inline(never)]
fn copy_of(alloc: Global, row: &Row) -> Result<Row, AllocError>
    ensures { IfOk result (λ copy. copy ≡ row.now) }
{
    Ok(Row {
        subject: row.subject,
        findings: row.findings.copy(alloc)?,
        reads: row.reads.copy(alloc)?,
    })
}
