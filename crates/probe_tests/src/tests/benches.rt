//! A bench with one closed line, and what is told of points on it.

ghost use Rattle.std.specs.Prelude.{◌≡◌, IfOk, is_some};
ghost use Rattle.rule_spec.specs.Records.{feature_named};

use super::lines::{AREA_NAME, NUMBER, area, edge, node};
use cell_bench::Bench;
use cell_make::make_cell;
use cell_spec::{Edit, Rows};
use chain_topo::{Look, Steps};
use edit_sets::EditSet;
use geo_exact::Point;
use s57_types::{Rec, RecName};
use skin_probe::{ProbeSheet, probe, wind};
use std::alloc::{AllocError, Global};
use std::process::Abort;
use std::sync::ledger::Ledger;

/// The bench of a generated square, whose areas go round no point south-west of it.
fn square<L: Ledger>(
    rt: &impl Abort,
    alloc: Global,
    steps: &mut Steps<L>,
) -> Result<Bench, AllocError> {
    match Bench::load(alloc, make_cell(alloc, 1)?, steps) {
        Ok(bench) => Ok(bench),
        Err(_) => panic!(rt; "the square isn't loaded"),
    }
}

/// The additions of the node, the line and the area.
fn additions(
    alloc: Global,
    points: &[Point],
    orientations: &[u8],
) -> Result<[Edit; 3], AllocError> {
    let inner = points.get(1..points.len().saturating_sub(1)).unwrap_or(&[]);
    let first = points.first().copied().unwrap_or((0, 0));
    let node = node(alloc, first)?;
    let edge = edge(alloc, inner)?;
    let area = area(alloc, orientations)?;
    Ok([Edit::Add(node), Edit::Add(edge), Edit::Add(area)])
}

/// The set of these edits.
fn set_of(
    rt: &impl Abort,
    alloc: Global,
    edits: &[Edit; 3],
    nall: u8,
) -> Result<EditSet, AllocError>
    ensures { IfOk result (λ set. set.nall ≡ nall) }
{
    match EditSet::make(alloc, edits, &[], nall) {
        Ok(set) => Ok(set),
        Err(_) => panic!(rt; "the edits have a fault of form"),
    }
}

/// Has a bench take a set.
fn take<L: Ledger>(
    rt: &impl Abort,
    alloc: Global,
    bench: &mut Bench,
    set: &EditSet,
    steps: &mut Steps<L>,
) -> Result<(), AllocError>
    requires { set.now.nall ≡ bench.old.head.nall }
{
    let plan = match bench.plan(alloc, set, &Rows::make(alloc), &[], steps) {
        Ok(plan) => plan,
        Err(_) => panic!(rt; "the square doesn't take the edits"),
    };
    bench.reserve(alloc, &plan)?;
    bench.install(plan);
    Ok(())
}

/// The bench of the square with the line and the area.
pub(crate) fn bench_with<L: Ledger>(
    rt: &impl Abort,
    alloc: Global,
    points: &[Point],
    orientations: &[u8],
    steps: &mut Steps<L>,
) -> Result<Bench, AllocError> {
    let edits = additions(alloc, points, orientations)?;
    let mut bench = square(rt, alloc, steps)?;
    let set = set_of(rt, alloc, &edits, bench.head().nall)?;
    take(rt, alloc, &mut bench, &set, steps)?;
    Ok(bench)
}

/// Whether a cell has a feature of a name.
fn has_feature<B: Look, L: Ledger>(look: &B, name: RecName, steps: &mut Steps<L>) -> bool
    ensures { result ≡ is_some (feature_named (B.cell look.now) name) }
{
    match look.get(name, steps) {
        Some(Rec::F(_)) => true,
        _ => false,
    }
}

/// The winding number of the area.
fn area_wind<L: Ledger>(
    rt: &impl Abort,
    alloc: Global,
    bench: &Bench,
    at: Point,
    steps: &mut Steps<L>,
) -> Result<i64, AllocError> {
    let store = bench.store();
    if !has_feature(store, AREA_NAME, steps) {
        panic!(rt; "the area is missing");
    }
    wind(alloc, store, AREA_NAME, at.0, at.1, steps)
}

/// Checks a sheet of a point that only the area may go round, so often.
fn check_sheet(rt: &impl Abort, sheet: &ProbeSheet, wanted: i64) {
    assert_eq!(rt; sheet.sums, (wanted, 0));
    if wanted == 0 {
        assert!(rt; sheet.group1.is_empty());
    } else {
        assert_eq!(rt; sheet.group1.as_slice(), [(NUMBER, wanted)].as_slice());
    }
    assert!(rt; sheet.cover.is_empty());
}

/// Checks what is told of a point that only the area may go round, so often.
pub(crate) fn check_point<L: Ledger>(
    rt: &impl Abort,
    alloc: Global,
    bench: &Bench,
    at: Point,
    wanted: i64,
    steps: &mut Steps<L>,
) -> Result<(), AllocError> {
    assert_eq!(rt; area_wind(rt, alloc, bench, at, steps)?, wanted);
    check_sheet(rt, &probe(alloc, bench, at.0, at.1, steps)?, wanted);
    Ok(())
}
