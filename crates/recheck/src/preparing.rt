//! What is prepared of edits.

ghost use Rattle.std.specs.Prelude.{◌≡◌, ◌<◌, IfOk, IfSome, true};
ghost use Rattle.cell_bench.specs.Benches.{IsPlanned, IsReachOf};
ghost use Rattle.cell_spec.specs.Edits.{is_applicable};
ghost use Rattle.rule_spec.specs.Affected.{RowsAreExact};
ghost use Rattle.recheck.specs.Preparing.{edited_rows, prepared_rows};

use crate::judging::judge_all;
use crate::known::KnownLook;
use crate::parts::parts_of;
use cell_bench::{Bench, BenchPlan, PlanRefusal, Prepared, Reach};
use cell_overlay::Overlay;
use cell_spec::Rows;
use chain_topo::Steps;
use edit_sets::EditSet;
use look_counter::start_counter;
use std::alloc::{AllocError, Global};
use std::marker::Brand;
use std::sync::ledger::{Blank, Ledger};
use std::thread::Threads;
use subject_rows::part_names;

/// Edits on the bench on which they are prepared.
#[derive(Clone, Copy)]
struct Proposal<'a, 'b> {
    bench: &'a Bench,
    edits: &'b EditSet,
}

impl<'a, 'b> Proposal<'a, 'b> {
    /// The rows of the affected subjects of the cell that edits leave.
    fn rows_after<R: Threads + Sync, L: Ledger>(
        &self,
        rt: &R,
        alloc: Global,
        reach: &Reach,
        steps: &mut Steps<L>,
    ) -> Result<Rows, AllocError>
        requires level { self.now.edits.now.nall ≡ self.now.bench.now.head.nall }
        requires taken { is_applicable self.now.edits.now.edits self.now.bench.now ≡ true }
        requires reach { IsReachOf self.now.edits.now.edits self.now.bench.now reach.now }
        ensures { IfOk result (λ rows. rows ≡ edited_rows self.now.edits.now.edits self.now.bench.now) }
    {
        self.bench.known();
        let keys = reach.touched.as_slice();
        let over = Overlay::over_keys(alloc, self.bench.store(), self.edits, keys, steps)?;
        let subjects = reach.judged.as_slice();
        let names = part_names(alloc, subjects)?;
        let names = names.as_slice();
        let known = KnownLook::keeping(&over, names, steps);
        let parts = parts_of(rt, alloc, &known, names)?;
        judge_all(rt, alloc, &known, &parts, subjects)
    }

    /// The bench that edits leave, built of these rows. One with too many findings isn't built: those are told in the turn.
    fn bench_after(
        &self,
        alloc: Global,
        reach: Reach,
        rows: &Rows,
    ) -> Result<Option<BenchPlan>, AllocError>
        requires level { self.now.edits.now.nall ≡ self.now.bench.now.head.nall }
        requires taken { is_applicable self.now.edits.now.edits self.now.bench.now ≡ true }
        requires reach { IsReachOf self.now.edits.now.edits self.now.bench.now reach }
        requires rows { rows.now ≡ edited_rows self.now.edits.now.edits self.now.bench.now }
        ensures { IfOk result (λ ahead. IfSome ahead (IsPlanned self.now.bench.now self.now.edits.now.edits)) }
    {
        match self.bench.plan_judged(alloc, self.edits, reach, rows) {
            Ok(plan) => Ok(Some(plan)),
            Err(PlanRefusal::State(_)) => Ok(None),
            Err(PlanRefusal::NoMemory) => Err(AllocError),
        }
    }

    /// The rows that edits want on a bench that takes them, and the bench that they leave.
    fn rows_and_bench<R: Threads + Sync, L: Ledger>(
        &self,
        rt: &R,
        alloc: Global,
        steps: &mut Steps<L>,
    ) -> Result<(Rows, Option<BenchPlan>), AllocError>
        requires level { self.now.edits.now.nall ≡ self.now.bench.now.head.nall }
        requires taken { is_applicable self.now.edits.now.edits self.now.bench.now ≡ true }
        ensures rows { IfOk result (λ made. made.0 ≡ edited_rows self.now.edits.now.edits self.now.bench.now) }
        ensures ahead { IfOk result (λ made. IfSome made.1 (IsPlanned self.now.bench.now self.now.edits.now.edits)) }
    {
        let reach = self.bench.reach(alloc, self.edits, steps)?;
        let rows = self.rows_after(rt, alloc, &reach, steps)?;
        let ahead = self.bench_after(alloc, reach, &rows)?;
        Ok((rows, ahead))
    }

    /// The same, and neither where the cell doesn't take the edits.
    fn judged_ahead<R: Threads + Sync, L: Ledger>(
        &self,
        rt: &R,
        alloc: Global,
        blank: Blank,
    ) -> Result<(Rows, Option<BenchPlan>), AllocError>
        requires level { self.now.edits.now.nall ≡ self.now.bench.now.head.nall }
        requires name { blank.name ≡ L.name }
        requires parts { blank.parts ≡ L.parts }
        requires some_part { 0 < L.parts }
        ensures rows { IfOk result (λ made. made.0 ≡ prepared_rows self.now.edits.now.edits self.now.bench.now) }
        ensures ahead { IfOk result (λ made. IfSome made.1 (IsPlanned self.now.bench.now self.now.edits.now.edits)) }
    {
        let mut steps = start_counter::<L>(blank);
        if !self.bench.takes(alloc, self.edits, &mut steps)? {
            return Ok((Rows::make(alloc), None));
        }
        self.rows_and_bench(rt, alloc, &mut steps)
    }
}

/// A commit of edits on a bench with this base, prepared: the row of each affected subject of the edited cell is judged, in the order in
/// which edits reach them, and the bench that they leave is built ahead. Where the cell doesn't take the edits there is neither. No turn is
/// waited for, and a few threads share the work where there is much.
///
/// An `Err` is out of memory.
pub fn prepare<R: Threads + Sync>(
    rt: &R,
    alloc: Global,
    bench: &Bench,
    base: u32,
    edits: EditSet,
) -> Result<Prepared, AllocError>
    requires level { edits.nall ≡ bench.now.head.nall }
    ensures base { IfOk result (λ prepared. prepared.base ≡ base) }
    ensures edits { IfOk result (λ prepared. prepared.edits ≡ edits) }
    ensures rows { IfOk result (λ prepared. prepared.rows ≡ prepared_rows edits.edits bench.now) }
    ensures right { IfOk result (λ prepared. RowsAreExact edits.edits bench.now prepared.rows) }
    ensures ahead { IfOk result (λ prepared. IfSome prepared.ahead (IsPlanned bench.now prepared.edits.edits)) }
{
    let proposal = Proposal {
        bench,
        edits: &edits,
    };
    let (rows, ahead) = proposal.judged_ahead::<R, Brand>(rt, alloc, Blank::new(1))?;
    Ok(Prepared::with_ahead(base, edits, rows, ahead))
}
