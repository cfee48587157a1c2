//! The areas round a point.

ghost use Rattle.std.specs.Prelude.{◌≡◌, IfOk};
ghost use Rattle.skin_probe.specs.Sheet.{sheet_of};
ghost use Rattle.skin_probe.specs.Totals.{unbalanced_total};
ghost use Rattle.skin_probe.specs.WindingLaws.{AreSumsByEdges};

use crate::area::AreaSort;
use crate::balance::unbalanced_sides;
use crate::law::{balanced_sides_equal_winding, winding_sum_by_edges};
use crate::sheet::{ProbeSheet, probe_sort};
use crate::winding::Probe;
use cell_bench::Bench;
use chain_topo::Steps;
use geo_exact::Point;
use std::alloc::{AllocError, Global};
use std::sync::ledger::Ledger;

/// How many findings SideUnbalanced the cell of a bench has.
fn unbalanced_of(bench: &Bench) -> u32
    ensures { result ≡ unbalanced_total bench.now }
{
    bench.known();
    let table = bench.findings();
    unbalanced_sides(table)
}

/// What is told of the areas round a point.
fn sheet_at<L: Ledger>(
    alloc: Global,
    bench: &Bench,
    at: Point,
    steps: &mut Steps<L>,
) -> Result<ProbeSheet, AllocError>
    ensures sheet { IfOk result (λ sheet. sheet ≡ sheet_of bench.now at) }
    ensures by_edges { IfOk result (λ sheet. AreSumsByEdges bench.now at sheet.sums) }
    ensures balanced { IfOk result (λ sheet. sheet.unbalanced ≡ 0 → sheet.sums.0 ≡ sheet.sums.1) }
{
    bench.known();
    winding_sum_by_edges();
    balanced_sides_equal_winding();
    let store = bench.store();
    let probe = Probe {
        alloc,
        look: store,
        at,
    };
    let group1 = probe_sort(&probe, AreaSort::Group1, steps)?;
    let cover = probe_sort(&probe, AreaSort::Coverage, steps)?;
    let unbalanced = unbalanced_of(bench);
    Ok(ProbeSheet {
        group1: group1.rounds,
        cover: cover.rounds,
        sums: (group1.total, cover.total),
        unbalanced,
    })
}

/// The areas of Group 1 and those of the coverage that go round a point, its latitude `y` and its longitude `x` in integer coordinate
/// units, each with its winding number; the two sums; and how many sides are unbalanced.
///
/// Whatever the boundaries, the two sums are sums over the edges of the cell: how much more often such areas use the edge forward than in
/// reverse, times the edge's own part. So where no side is unbalanced they are equal.
///
/// An `Err` means out of memory.
pub fn probe<L: Ledger>(
    alloc: Global,
    bench: &Bench,
    y: i32,
    x: i32,
    steps: &mut Steps<L>,
) -> Result<ProbeSheet, AllocError>
    ensures sheet { IfOk result (λ sheet. sheet ≡ sheet_of bench.now (y, x)) }
    ensures by_edges { IfOk result (λ sheet. AreSumsByEdges bench.now (y, x) sheet.sums) }
    ensures balanced { IfOk result (λ sheet. sheet.unbalanced ≡ 0 → sheet.sums.0 ≡ sheet.sums.1) }
{
    sheet_at(alloc, bench, (y, x), steps)
}
