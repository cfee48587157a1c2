//! Benches of generated cells, and commits on them.

ghost use Rattle.std.specs.Prelude.{◌≡◌, ◌+◌, ◌≤◌, [], IfOk};
ghost use Rattle.cell_spec.specs.Writable.{IsWritable};
ghost use Rattle.rule_spec.specs.Affected.{plan_budget};
ghost use Rattle.cell_make.specs.GeneratedCell.{generated_cell};

use cell_bench::{Bench, PlanRefusal};
use cell_make::make_cell;
use cell_spec::{Edit, Findings, Rows, Subject};
use chain_topo::Steps;
use edit_sets::EditSet;
use s57_types::Cell;
use shared_table::{Shared, SharedTable};
use std::alloc::{AllocError, Global};
use std::process::Abort;
use std::sync::ledger::Ledger;

fn load<L: Ledger>(rt: &impl Abort, alloc: Global, cell: Cell, steps: &mut Steps<L>) -> Bench
    requires { IsWritable cell }
    ensures { result ≡ cell }
{
    match Bench::load(alloc, cell, steps) {
        Ok(bench) => bench,
        Err(_) => panic!(rt; "the cell isn't loaded"),
    }
}

/// The bench of the generated cell with so many squares at a side.
pub(crate) fn open_bench<L: Ledger>(
    rt: &impl Abort,
    alloc: Global,
    n: u32,
    steps: &mut Steps<L>,
) -> Result<Bench, AllocError>
    requires some { 1 ≤ n }
    requires few { n ≤ 100 }
    ensures { IfOk result (λ bench. bench ≡ generated_cell n) }
{
    Ok(load(rt, alloc, make_cell(alloc, n)?, steps))
}

/// The edit set of edits at the level of a bench.
pub(crate) fn set_for(rt: &impl Abort, alloc: Global, bench: &Bench, edits: &[Edit]) -> EditSet
    ensures level { result.nall ≡ bench.now.head.nall }
    ensures edits { result.edits ≡ edits.now }
{
    assert!(rt; edits.len() < 99);
    match EditSet::make(alloc, edits, &[], bench.head().nall) {
        Ok(set) => set,
        Err(_) => panic!(rt; "the form is wrong"),
    }
}

/// Commits edits, or tells that the cell doesn't take them. It makes no more look-ups than a plan may.
pub(crate) fn commit<L: Ledger>(
    rt: &impl Abort,
    alloc: Global,
    bench: &mut Bench,
    edits: &[Edit],
    steps: &mut Steps<L>,
) -> Result<bool, AllocError>
    ensures { steps.new ≤ steps.old + plan_budget edits.now bench.old [] [] }
{
    let set = set_for(rt, alloc, bench, edits);
    let plan = match bench.plan(alloc, &set, &Rows::make(alloc), &[], steps) {
        Ok(plan) => plan,
        Err(PlanRefusal::State(_)) => return Ok(false),
        Err(PlanRefusal::NoMemory) => return Err(AllocError),
    };
    bench.reserve(alloc, &plan)?;
    bench.install(plan);
    Ok(true)
}

/// Checks that two tables have the same findings.
pub(crate) fn check_tables(
    rt: &impl Abort,
    found: &SharedTable<Subject, Shared<Findings>>,
    wanted: &SharedTable<Subject, Shared<Findings>>,
) {
    assert_eq!(rt; found.len(), wanted.len());
    for ((subject, findings), (other, others)) in found.rows().zip(wanted.rows()) {
        assert_eq!(rt; *subject, *other);
        assert_eq!(rt; findings.as_slice(), others.as_slice());
    }
}

/// Checks that the findings of a bench are those of its cell, loaded anew.
pub(crate) fn check_findings<L: Ledger>(
    rt: &impl Abort,
    alloc: Global,
    bench: &Bench,
    steps: &mut Steps<L>,
) -> Result<(), AllocError> {
    bench.known();
    let fresh = load(rt, alloc, bench.to_cell(alloc)?, steps);
    assert_eq!(rt; bench.finding_count(), fresh.finding_count());
    check_tables(rt, bench.findings(), fresh.findings());
    Ok(())
}
