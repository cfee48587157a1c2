//! The first findings of a cell.

ghost use Rattle.std.specs.Prelude.{◌≡◌, ◌++◌, ◌-◌, ◌≤◌, IfOk, OnOk, length, map, take};
ghost use Rattle.cell_findings.specs.Rows.{findings_of_rows, with_subject};

use cell_findings::SubjectFinding;
use cell_spec::{Finding, Findings, Subject};
use shared_table::{Shared, SharedTable};
use std::alloc::{AllocError, Global};

/// The first of some items, at most so many.
pub(crate) fn at_most<T>(items: &[T], limit: usize) -> &[T]
    ensures { result.now ≡ take limit items.now }
{
    if items.len() <= limit {
        items
    } else {
        &items[..limit]
    }
}

/// Appends the first findings about a subject, as long as there are at most so many in all.
fn push_some(
    first: &mut Vec<SubjectFinding>,
    subject: Subject,
    findings: &[Finding],
    limit: usize,
) -> Result<(), AllocError>
    requires { length first.old.items ≤ limit }
    ensures { OnOk result (first.new.items ≡ first.old.items ++ map (with_subject subject) (take (limit - length first.old.items) findings.now)) }
{
    let some = at_most(findings, limit - first.len());
    for finding in some {
        first.push(SubjectFinding {
            subject,
            finding: *finding,
        })?;
    }
    Ok(())
}

/// The first findings of a cell, at most so many, from the table of all of them.
pub(crate) fn first_findings(
    alloc: Global,
    table: &SharedTable<Subject, Shared<Findings>>,
    limit: usize,
) -> Result<Vec<SubjectFinding>, AllocError>
    ensures { IfOk result (λ first. first.items ≡ take limit (findings_of_rows table.now)) }
{
    let mut first = Vec::new(alloc);
    for (subject, findings) in table.rows() {
        if first.len() >= limit {
            return Ok(first);
        }
        push_some(&mut first, *subject, findings.as_slice(), limit)?;
    }
    Ok(first)
}
