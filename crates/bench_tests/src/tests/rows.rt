//! Commits as rows: what is edited, and all that is found then.

ghost use Rattle.std.specs.Prelude.{◌≤◌};

use super::benches::{check_findings, commit, open_bench};
use super::records::{edge, end_at, line, node};
use cell_bench::Bench;
use cell_spec::{Edit, Finding, Subject};
use chain_topo::Steps;
use s57_types::{Rec, RecName};
use std::alloc::{AllocError, Global};
use std::process::Abort;
use std::sync::ledger::Ledger;

/// A record by its number: a connected node at a place, an edge from one node to another, a line with its identifier on an edge.
#[derive(Clone, Copy)]
pub(crate) enum Item {
    Node(u32, (i32, i32)),
    Edge(u32, (u32, u32)),
    Line(u32, u32, u32),
}

/// An edit.
#[derive(Clone, Copy)]
pub(crate) enum Change {
    Add(Item),
    Set(Item),
    Del(RecName),
}

/// A finding: what it is about, its kind and its numbers.
pub(crate) type Found = (Subject, u8, [u32; 4]);

/// What is edited, and all that is found then.
pub(crate) type Row = (&'static [Change], &'static [Found]);

fn record_of(alloc: Global, item: Item) -> Result<Rec, AllocError> {
    match item {
        Item::Node(id, position) => node(alloc, id, position),
        Item::Edge(id, (first, last)) => edge(alloc, id, &[end_at(1, first), end_at(2, last)]),
        Item::Line(id, fidn, edge) => line(alloc, id, fidn, edge),
    }
}

fn edit_of(alloc: Global, change: Change) -> Result<Edit, AllocError> {
    match change {
        Change::Add(item) => Ok(Edit::Add(record_of(alloc, item)?)),
        Change::Set(item) => Ok(Edit::Set(record_of(alloc, item)?)),
        Change::Del(name) => Ok(Edit::Del(name)),
    }
}

fn edits_of(alloc: Global, changes: &[Change]) -> Result<Vec<Edit>, AllocError> {
    let mut edits = Vec::new(alloc);
    for change in changes {
        edits.push(edit_of(alloc, *change)?)?;
    }
    Ok(edits)
}

/// Checks that a bench has these findings and no others.
fn check_found(rt: &impl Abort, bench: &Bench, found: &[Found]) {
    assert_eq!(rt; bench.finding_count() as usize, found.len());
    for (subject, kind, nums) in found {
        let Some(findings) = bench.findings().get(subject) else {
            panic!(rt; "a finding is missing");
        };
        let finding = Finding {
            kind: *kind,
            nums: *nums,
        };
        assert!(rt; findings.as_slice().contains(&finding));
    }
}

/// Checks a row.
fn check_row<L: Ledger>(
    rt: &impl Abort,
    alloc: Global,
    bench: &mut Bench,
    row: Row,
    steps: &mut Steps<L>,
) -> Result<(), AllocError> {
    let edits = edits_of(alloc, row.0)?;
    assert!(rt; commit(rt, alloc, bench, &edits, steps)?);
    check_found(rt, bench, row.1);
    check_findings(rt, alloc, bench, steps)
}

/// Checks rows, one after the other, on the generated cell with so many squares at a side.
pub(crate) fn check_rows<L: Ledger>(
    rt: &impl Abort,
    alloc: Global,
    n: u32,
    rows: &[Row],
    steps: &mut Steps<L>,
) -> Result<(), AllocError>
    requires some { 1 ≤ n }
    requires few { n ≤ 100 }
{
    let mut bench = open_bench(rt, alloc, n, steps)?;
    for row in rows {
        check_row(rt, alloc, &mut bench, *row, steps)?;
    }
    Ok(())
}
