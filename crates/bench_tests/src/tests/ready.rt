//! Plans with rows that are ready.

ghost use Rattle.std.specs.Prelude.{◌≡◌, ◌+◌, ◌*◌, ◌<◌, ◌≤◌, ◌||◌, All, IfOk, IsTrue, length, map, true};
ghost use Rattle.cell_spec.specs.Edits.{apply_edits, is_applicable, touched_keys};
ghost use Rattle.rule_spec.specs.{Affected.{exact_row, is_single, plan_budget}, Findings.{is_subject}};
ghost use Rattle.cell_bench.specs.Benches.{AreReady};
ghost use Rattle.bench_tests.specs.ReadyRows.{AreRowsAfter};

use super::benches::{check_tables, open_bench, set_for};
use super::records::{named, node};
use cell_bench::{Bench, BenchPlan};
use cell_spec::{Edit, Key, Row, Rows, Subject};
use chain_topo::Steps;
use edit_sets::EditSet;
use look_counter::start_counter;
use record_store::RecordStore;
use s57_types::{Duplicate, Kind};
use std::alloc::{AllocError, Global};
use std::marker::Brand;
use std::process::Abort;
use std::sync::ledger::{Blank, Ledger};
use std::test::Fail;
use subject_rows::row_of;

/// The rows of subjects of a cell.
fn rows_in<L: Ledger>(
    alloc: Global,
    store: &RecordStore,
    subjects: &[Subject],
    steps: &mut Steps<L>,
) -> Result<Vec<Row>, AllocError>
    requires { All (λ s. IsTrue (is_single s || is_subject store.now s)) subjects.now }
    ensures { IfOk result (λ rows. rows.items ≡ map (exact_row store.now) subjects.now) }
{
    let mut rows = Vec::new(alloc);
    for subject in subjects {
        rows.push(row_of(alloc, store, *subject, steps)?)?;
    }
    Ok(rows)
}

/// The keys that rows read.
fn keys_in(alloc: Global, rows: &Rows) -> Result<Vec<Key>, AllocError> {
    let mut keys = Vec::new(alloc);
    for row in rows.as_slice() {
        keys.extend_from_slice(row.reads.as_slice())?;
    }
    Ok(keys)
}

/// Edits at the level of a bench, and rows that may be ready for them.
#[derive(Drop)]
struct Trial<'a> {
    alloc: Global,
    bench: &'a Bench,
    set: &'a EditSet,
    rows: Rows,
}

impl<'a> Trial<'a> {
    /// The rows of the affected subjects of the cell that the edits leave.
    fn ready<L: Ledger>(&self, after: &Bench, steps: &mut Steps<L>) -> Result<Rows, AllocError>
        requires level { self.now.set.now.nall ≡ self.now.bench.now.head.nall }
        requires taken { is_applicable self.now.set.now.edits self.now.bench.now ≡ true }
        requires after { after.now ≡ apply_edits self.now.set.now.edits self.now.bench.now }
        ensures { IfOk result (AreRowsAfter self.now.bench.now self.now.set.now.edits) }
    {
        let affected = self.bench.affected(self.alloc, self.set)?;
        let rows = rows_in(self.alloc, after.store(), affected.as_slice(), steps)?;
        Ok(Rows::of_vec(rows))
    }

    /// The bench that is planned.
    fn installed(&self, plan: BenchPlan) -> Result<Bench, AllocError>
        ensures { IfOk result (λ after. after ≡ plan) }
    {
        let mut after = self.bench.copy(self.alloc)?;
        after.install(plan);
        Ok(after)
    }

    /// The bench after the edits, planned with the rows where none of the stale keys is read.
    fn planned<L: Ledger>(
        &self,
        rt: &impl Abort,
        stale: &[Key],
        steps: &mut Steps<L>,
    ) -> Result<Bench, AllocError>
        requires level { self.now.set.now.nall ≡ self.now.bench.now.head.nall }
        requires ready { AreReady self.now.bench.now self.now.set.now.edits stale.now self.now.rows }
        ensures after { IfOk result (λ after. after ≡ apply_edits self.now.set.now.edits self.now.bench.now) }
        ensures steps { steps.new ≤ steps.old + plan_budget self.now.set.now.edits self.now.bench.now stale.now self.now.rows }
    {
        match self
            .bench
            .plan(self.alloc, self.set, &self.rows, stale, steps)
        {
            Ok(plan) => self.installed(plan),
            Err(_) => panic!(rt; "the edits aren't taken"),
        }
    }

    /// The bench after the edits, planned with the rows of all affected subjects: four look-ups for each touched key and each edit at most.
    fn by_rows<L: Ledger>(&self, rt: &impl Abort, steps: &mut Steps<L>) -> Result<Bench, AllocError>
        requires level { self.now.set.now.nall ≡ self.now.bench.now.head.nall }
        requires rows { AreRowsAfter self.now.bench.now self.now.set.now.edits self.now.rows }
        ensures { steps.new ≤ steps.old + 4 * (length (touched_keys self.now.set.now.edits self.now.bench.now) + length self.now.set.now.edits) }
    {
        self.planned(rt, &[], steps)
    }

    /// The bench after the edits, planned with rows of which none is valid any more.
    fn anew<L: Ledger>(&self, rt: &impl Abort, steps: &mut Steps<L>) -> Result<Bench, AllocError>
        requires level { self.now.set.now.nall ≡ self.now.bench.now.head.nall }
        requires rows { AreRowsAfter self.now.bench.now self.now.set.now.edits self.now.rows }
    {
        self.planned(rt, &keys_in(self.alloc, &self.rows)?, steps)
    }

    /// The bench after the edits, planned from what they reach. Nothing is judged.
    fn ahead<L: Ledger>(&self, rt: &impl Abort, steps: &mut Steps<L>) -> Result<Bench, AllocError>
        requires level { self.now.set.now.nall ≡ self.now.bench.now.head.nall }
        requires taken { is_applicable self.now.set.now.edits self.now.bench.now ≡ true }
        requires rows { AreRowsAfter self.now.bench.now self.now.set.now.edits self.now.rows }
    {
        let reach = self.bench.reach(self.alloc, self.set, steps)?;
        match self
            .bench
            .plan_judged(self.alloc, self.set, reach, &self.rows)
        {
            Ok(plan) => self.installed(plan),
            Err(_) => panic!(rt; "the edits aren't taken"),
        }
    }

    /// Checks that plans by rows leave the findings of a bench.
    fn check<L: Ledger>(
        &self,
        rt: &impl Abort,
        after: &Bench,
        steps: &mut Steps<L>,
    ) -> Result<(), AllocError>
        requires level { self.now.set.now.nall ≡ self.now.bench.now.head.nall }
        requires taken { is_applicable self.now.set.now.edits self.now.bench.now ≡ true }
        requires rows { AreRowsAfter self.now.bench.now self.now.set.now.edits self.now.rows }
    {
        let by_rows = self.by_rows(rt, steps)?;
        check_tables(rt, by_rows.findings(), after.findings());
        let anew = self.anew(rt, steps)?;
        check_tables(rt, anew.findings(), after.findings());
        let ahead = self.ahead(rt, steps)?;
        check_tables(rt, ahead.findings(), after.findings());
        Ok(())
    }
}

/// Checks that edits leave the same findings without rows, with rows that are ready, with rows that are stale, and from what they reach.
fn check_set<L: Ledger>(
    rt: &impl Abort,
    alloc: Global,
    bench: &Bench,
    set: &EditSet,
    steps: &mut Steps<L>,
) -> Result<(), AllocError>
    requires { set.now.nall ≡ bench.now.head.nall }
{
    let taken = bench.takes(alloc, set, steps)?;
    assert!(rt; taken);
    let rows = Rows::make(alloc);
    let bare = Trial {
        alloc,
        bench,
        set,
        rows,
    };
    let after = bare.planned(rt, &[], steps)?;
    let rows = bare.ready(&after, steps)?;
    let ready = Trial {
        alloc,
        bench,
        set,
        rows,
    };
    ready.check(rt, &after, steps)
}

/// A node of a cell of four squares is moved onto another, and one is deleted.
fn check_rows<L: Ledger>(rt: &impl Abort, alloc: Global, blank: Blank) -> Result<(), AllocError>
    requires name { blank.name ≡ L.name }
    requires parts { blank.parts ≡ L.parts }
    requires some_part { 0 < L.parts }
{
    let mut steps = start_counter::<L>(blank);
    let bench = open_bench(rt, alloc, 2, &mut steps)?;
    let edits = [
        Edit::Set(node(alloc, 1, (40_000, 40_000))?),
        Edit::Del(named(Kind::Vc, 9)),
    ];
    let set = set_for(rt, alloc, &bench, &edits);
    check_set(rt, alloc, &bench, &set, &mut steps)
}

#[test]
fn ready_rows_are_taken_where_they_are_valid(rt: HostRuntime) -> Result<(), Fail> {
    check_rows::<Brand>(&rt, rt.alloc(), Blank::new(1))?;
    Ok(())
}
