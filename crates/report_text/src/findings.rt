//! The part of a report that tells of a cell.

ghost use Rattle.std.specs.Prelude.{◌≡◌, ◌++◌, OnErr, OnOk, length};
ghost use Rattle.std.specs.List.{flat_map};
ghost use Rattle.cell_findings.specs.Counts.{counts_of};
ghost use Rattle.cell_spec.specs.Edits.{list_of_kind};
ghost use Rattle.text_spec.specs.CellText.{cell_text, row_lines};

use cell_bench::Bench;
use cell_findings::{RecordCounts, push_end, push_findings_about, push_heading};
use cell_spec::{Findings, Subject};
use s57_types::Kind;
use shared_table::{Shared, SharedTable};
use std::alloc::{AllocError, Global};
use text_lines::push_bytes;

/// How many records of a kind a bench's cell has.
fn count_of(bench: &Bench, kind: Kind) -> usize
    ensures { result ≡ length (list_of_kind kind bench.now) }
{
    bench.known();
    bench.store().walk(kind).count()
}

/// How many records of each kind a bench's cell has.
fn counts_in(bench: &Bench) -> RecordCounts
    ensures { result ≡ counts_of bench.now }
{
    RecordCounts {
        vi: count_of(bench, Kind::Vi),
        vc: count_of(bench, Kind::Vc),
        ve: count_of(bench, Kind::Ve),
        fe: count_of(bench, Kind::Fe),
    }
}

/// Appends the lines of all findings of a table, subject by subject.
fn push_rows(
    out: &mut Vec<u8>,
    table: &SharedTable<Subject, Shared<Findings>>,
) -> Result<(), AllocError>
    ensures { OnOk result (out.new.items ≡ out.old.items ++ flat_map row_lines table.now) }
{
    for (subject, findings) in table.rows() {
        push_findings_about(out, *subject, findings.as_slice())?;
    }
    Ok(())
}

/// Appends the same as `print_findings`, and after an `Err` perhaps a beginning of it.
pub(crate) fn push_left(out: &mut Vec<u8>, bench: &Bench) -> Result<(), AllocError>
    ensures { OnOk result (out.new.items ≡ out.old.items ++ cell_text bench.now) }
{
    push_heading(out, counts_in(bench), bench.finding_count() as usize)?;
    push_rows(out, bench.findings())?;
    push_end(out)
}

/// Appends the cell's part of a report: the numbers of its records of each kind, and all its findings.
///
/// An `Err` means out of memory, and leaves the text as it was.
pub fn print_findings(alloc: Global, bench: &Bench, out: &mut Vec<u8>) -> Result<(), AllocError>
    ensures ok { OnOk result (out.new.items ≡ out.old.items ++ cell_text bench.now) }
    ensures err { OnErr result (out.new.items ≡ out.old.items) }
{
    let mut part = Vec::new(alloc);
    push_left(&mut part, bench)?;
    push_bytes(out, &part)
}
