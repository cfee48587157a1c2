//! Findings that are gathered from one subject after the other, within a limit.

ghost use Rattle.std.specs.Prelude.{◌≡◌, ◌++◌, OnOk, map};
ghost use Rattle.cell_findings.specs.Gathered.{Gathers};
ghost use Rattle.cell_findings.specs.Rows.{with_subject};

use crate::list::SubjectFinding;
use crate::refusal::LoadRefusal;
use cell_spec::{Finding, Subject};
use std::alloc::AllocError;

fn push_findings(
    gathered: &mut Vec<SubjectFinding>,
    subject: Subject,
    findings: &[Finding],
) -> Result<(), AllocError>
    ensures { OnOk result (gathered.new.items ≡ gathered.old.items ++ map (with_subject subject) findings.now) }
{
    for finding in findings {
        gathered.push(SubjectFinding {
            subject,
            finding: *finding,
        })?;
    }
    Ok(())
}

/// Appends the findings about a subject.
pub(crate) fn push_found(
    gathered: &mut Vec<SubjectFinding>,
    subject: Subject,
    findings: &[Finding],
    limit: usize,
) -> Result<(), LoadRefusal>
    ensures { Gathers limit gathered.old.items (map (with_subject subject) findings.now) gathered.new.items result }
{
    push_findings(gathered, subject, findings)?;
    if gathered.len() > limit {
        return Err(LoadRefusal::FindingsFull);
    }
    Ok(())
}
