//! The part of a report that tells of a cell.

ghost use Rattle.std.specs.Prelude.{◌≡◌, ◌++◌, ◌∷◌, [], List, codes, decimal, map, OnErr, OnOk};
ghost use Rattle.std.specs.List.{flat_map};
ghost use Rattle.cell_spec.specs.declared.finding.Finding.{Finding as SpecFinding};
ghost use Rattle.cell_spec.specs.declared.key.Subject.{Subject as SpecSubject};
ghost use Rattle.s57_types.specs.declared.cell.Cell.{Cell as SpecCell};
ghost use Rattle.text_spec.specs.Lines.{line, spaced_words};
ghost use Rattle.text_spec.specs.CellText.{subject_word, subject_words, count_line, finding_line, row_lines, total_line, text_with};
ghost use Rattle.cell_findings.specs.Counts.{counts_of};
ghost use Rattle.cell_findings.specs.Rows.{findings_of_rows, line_of};

use crate::list::{Findings, SubjectFinding};
use cell_spec::{Finding, Subject};
use itoa::Buffer;
use rule_spec::{kind_name, number_count};
use s57_types::Cell;
use std::alloc::AllocError;
use text_lines::{push_bytes, push_identity, push_name, push_number, push_text, push_word};

/// How many records of each kind a cell has.
#[derive(Clone, Copy, Debug, PartialEq, Eq)]
pub struct RecordCounts {
    pub vi: usize,
    pub vc: usize,
    pub ve: usize,
    pub fe: usize,
}

/// Appends a subject.
fn push_subject(out: &mut Vec<u8>, subject: Subject) -> Result<(), AllocError>
    ensures { OnOk result (out.new.items ≡ out.old.items ++ subject_word subject ++ spaced_words (subject_words subject)) }
{
    match subject {
        Subject::Rec(name) => {
            push_text(out, "rec")?;
            push_name(out, name)
        }
        Subject::Side(name) => {
            push_text(out, "side")?;
            push_name(out, name)
        }
        Subject::Pair(first, second) => {
            push_text(out, "pair")?;
            push_name(out, first)?;
            push_name(out, second)
        }
        Subject::Ident(lnam) => {
            push_text(out, "ident")?;
            push_identity(out, lnam)
        }
    }
}

/// Appends numbers, each behind a space.
fn push_numbers(out: &mut Vec<u8>, numbers: &[u32]) -> Result<(), AllocError>
    ensures { OnOk result (out.new.items ≡ out.old.items ++ spaced_words (map decimal numbers.now)) }
{
    for number in numbers {
        push_number(out, *number)?;
    }
    Ok(())
}

/// Appends the line of a finding about a subject.
fn push_finding(out: &mut Vec<u8>, subject: Subject, finding: &Finding) -> Result<(), AllocError>
    ensures { OnOk result (out.new.items ≡ out.old.items ++ finding_line subject finding.now) }
{
    push_subject(out, subject)?;
    push_word(out, kind_name(finding.kind))?;
    push_numbers(out, &finding.nums[..number_count(finding.kind)])?;
    push_text(out, "\n")
}

/// Appends the lines of findings.
///
/// An `Err` means out of memory, and leaves the text as it was.
pub fn push_findings(out: &mut Vec<u8>, findings: &[SubjectFinding]) -> Result<(), AllocError>
    ensures ok { OnOk result (out.new.items ≡ out.old.items ++ flat_map line_of findings.now) }
    ensures err { OnErr result (out.new.items ≡ out.old.items) }
{
    let mut lines = Vec::new(*out.allocator());
    push_lines(&mut lines, findings)?;
    push_bytes(out, &lines)
}

/// Appends the lines of findings, and after an `Err` perhaps some of them.
fn push_lines(out: &mut Vec<u8>, findings: &[SubjectFinding]) -> Result<(), AllocError>
    ensures { OnOk result (out.new.items ≡ out.old.items ++ flat_map line_of findings.now) }
{
    for found in findings {
        push_finding(out, found.subject, &found.finding)?;
    }
    Ok(())
}

/// Appends the lines of the findings about a subject.
///
/// An `Err` means out of memory, and leaves the text as it was.
pub fn push_findings_about(
    out: &mut Vec<u8>,
    subject: Subject,
    findings: &[Finding],
) -> Result<(), AllocError>
    ensures ok { OnOk result (out.new.items ≡ out.old.items ++ row_lines (subject, findings.now)) }
    ensures err { OnErr result (out.new.items ≡ out.old.items) }
{
    let mut lines = Vec::new(*out.allocator());
    push_lines_about(&mut lines, subject, findings)?;
    push_bytes(out, &lines)
}

/// Appends the same, and after an `Err` perhaps some of them.
fn push_lines_about(
    out: &mut Vec<u8>,
    subject: Subject,
    findings: &[Finding],
) -> Result<(), AllocError>
    ensures { OnOk result (out.new.items ≡ out.old.items ++ row_lines (subject, findings.now)) }
{
    for finding in findings {
        push_finding(out, subject, finding)?;
    }
    Ok(())
}

/// Appends a word and a number, each behind a space.
///
/// An `Err` means out of memory, and after it perhaps the word stands there alone.
pub fn push_count(out: &mut Vec<u8>, word: &str, count: usize) -> Result<(), AllocError>
    ensures { OnOk result (out.new.items ≡ out.old.items ++ spaced_words (word.now ∷ decimal count ∷ [])) }
{
    let mut buffer = Buffer::new();
    push_word(out, word)?;
    push_word(out, buffer.format(count))
}

/// How many records of each kind a cell in memory has.
fn counts_in(cell: &Cell) -> RecordCounts
    ensures { result ≡ counts_of cell.now }
{
    RecordCounts {
        vi: cell.vi.len(),
        vc: cell.vc.len(),
        ve: cell.ve.len(),
        fe: cell.fe.len(),
    }
}

/// Appends the line of the numbers of records.
fn push_counts(out: &mut Vec<u8>, counts: RecordCounts) -> Result<(), AllocError>
    ensures { (c : SpecCell) → counts ≡ counts_of c → OnOk result (out.new.items ≡ out.old.items ++ count_line c) }
{
    push_text(out, "cell")?;
    push_count(out, "vi", counts.vi)?;
    push_count(out, "vc", counts.vc)?;
    push_count(out, "ve", counts.ve)?;
    push_count(out, "fe", counts.fe)?;
    push_text(out, "\n")
}

/// Appends the line of the number of findings.
fn push_total(out: &mut Vec<u8>, total: usize) -> Result<(), AllocError>
    ensures { OnOk result (out.new.items ≡ out.old.items ++ total_line total) }
{
    push_text(out, "findings")?;
    let mut buffer = Buffer::new();
    push_word(out, buffer.format(total))?;
    push_text(out, "\n")
}

/// Appends the lines in front of a cell's findings: how many records of each kind it has, and how many findings.
///
/// An `Err` means out of memory, and leaves the text as it was.
pub fn push_heading(out: &mut Vec<u8>, counts: RecordCounts, total: usize) -> Result<(), AllocError>
    ensures ok { (c : SpecCell) → counts ≡ counts_of c → OnOk result (out.new.items ≡ out.old.items ++ (count_line c ++ total_line total)) }
    ensures err { OnErr result (out.new.items ≡ out.old.items) }
{
    let mut heading = Vec::new(*out.allocator());
    push_counts(&mut heading, counts)?;
    push_total(&mut heading, total)?;
    push_bytes(out, &heading)
}

/// Appends the line behind a cell's findings.
///
/// An `Err` means out of memory, and leaves the text as it was.
pub fn push_end(out: &mut Vec<u8>) -> Result<(), AllocError>
    ensures ok { OnOk result (out.new.items ≡ out.old.items ++ line (codes "end") []) }
    ensures err { OnErr result (out.new.items ≡ out.old.items) }
{
    push_text(out, "end\n")
}

/// Appends the part of a report that tells of a cell: how many records of each kind it has, and its findings, a line
/// each.
///
/// An `Err` means out of memory, and leaves the text as it was.
pub fn push_cell(out: &mut Vec<u8>, cell: &Cell, findings: &Findings) -> Result<(), AllocError>
    ensures ok { (rows : List (SpecSubject × List SpecFinding)) → findings.now ≡ findings_of_rows rows
        → OnOk result (out.new.items ≡ out.old.items ++ text_with cell.now rows) }
    ensures err { OnErr result (out.new.items ≡ out.old.items) }
{
    let mut part = Vec::new(*out.allocator());
    push_part(&mut part, cell, findings)?;
    push_bytes(out, &part)
}

/// Appends the same, and after an `Err` perhaps a beginning of it.
fn push_part(out: &mut Vec<u8>, cell: &Cell, findings: &Findings) -> Result<(), AllocError>
    ensures { (rows : List (SpecSubject × List SpecFinding)) → findings.now ≡ findings_of_rows rows
        → OnOk result (out.new.items ≡ out.old.items ++ text_with cell.now rows) }
{
    push_heading(out, counts_in(cell), findings.len())?;
    push_lines(out, findings.as_slice())?;
    push_end(out)
}
