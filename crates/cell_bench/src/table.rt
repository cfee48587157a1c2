//! Findings one after the other, as rows of a table: a row for each subject that has some.

ghost use Rattle.std.specs.Prelude.{◌≡◌, ◌≤◌, ◌++◌, List, drop, length, map, IfOk, OnOk};
ghost use Rattle.std.specs.List.{prefix_len};
ghost use Rattle.cell_spec.specs.declared.finding.Finding.{Finding as SpecFinding};
ghost use Rattle.cell_spec.specs.declared.key.Subject.{Subject as SpecSubject};
ghost use Rattle.cell_bench.specs.FindingTables.{AreRowsOf, finding_in, front_length, front_row, is_about};

use cell_findings::SubjectFinding;
use cell_spec::{Findings, Subject, orders_are_by_parts};
use shared_table::{Shared, SharedTable};
use std::alloc::{AllocError, Global};

/// The findings of each subject that has some, ascending by subject.
pub(crate) type FindingTable = SharedTable<Subject, Shared<Findings>>;

/// A subject with its findings.
pub(crate) type FindingRow = (Subject, Shared<Findings>);

/// How many findings at the front are about a subject.
fn run_length(findings: &[SubjectFinding], subject: Subject) -> usize
    ensures run { result ≡ prefix_len (is_about subject) findings.now }
    ensures within { result ≤ length findings.now }
{
    orders_are_by_parts();
    for (k, finding) in findings.iter().enumerate() {
        if finding.subject.cmp(&subject).is_ne() {
            return k;
        }
    }
    findings.len()
}

/// Findings without their subjects.
fn findings_in(alloc: Global, findings: &[SubjectFinding]) -> Result<Findings, AllocError>
    ensures { IfOk result (λ found. found ≡ map finding_in findings.now) }
{
    let mut found = Vec::with_capacity(alloc, findings.len())?;
    for finding in findings {
        found.push(finding.finding)?;
    }
    Ok(Findings::of_vec(found))
}

/// Appends the row of the subject at the front, and answers the findings behind it.
fn push_front_row<'a>(
    alloc: Global,
    rows: &mut Vec<FindingRow>,
    findings: &'a [SubjectFinding],
) -> Result<&'a [SubjectFinding], AllocError>
    ensures row { OnOk result (rows.new.items ≡ rows.old.items ++ front_row findings.now) }
    ensures behind { IfOk result (λ rest. rest.now ≡ drop (front_length findings.now) findings.now) }
{
    let Some(first) = findings.first() else {
        return Ok(findings);
    };
    let (front, rest) = findings.split_at(run_length(findings, first.subject));
    let found = findings_in(alloc, front)?;
    rows.push((first.subject, Shared::make(alloc, found)?))?;
    Ok(rest)
}

/// The rows of findings that stand one after the other, those about one subject together.
pub(crate) fn rows_of(
    alloc: Global,
    findings: &[SubjectFinding],
) -> Result<Vec<FindingRow>, AllocError>
    ensures { (rows : List (SpecSubject × List SpecFinding)) → AreRowsOf rows findings.now → IfOk result (λ made. made.items ≡ rows) }
{
    let mut rows = Vec::new(alloc);
    let mut rest = findings;
    while !rest.is_empty() {
        rest = push_front_row(alloc, &mut rows, rest)?;
    }
    Ok(rows)
}
