//! The next version of a bench, planned from edits.

ghost use Rattle.std.specs.Prelude.{◌≡◌, ◌+◌, ◌≤◌, IfOk, IsOk, MatchResult, length, map, true};
ghost use Rattle.cell_spec.specs.Edits.{apply_edits, find_their_records, is_applicable, touched_keys};
ghost use Rattle.rule_spec.specs.Affected.{affected_list, change_by, exact_row, plan_budget};
ghost use Rattle.cell_bench.specs.Benches.{AreReady, IsPlanRefusal, IsPlanned, IsReachOf};
ghost use Rattle.cell_bench.specs.Rejudging.{planning_look_ups};

use crate::bench::Bench;
use crate::records::need_room;
use crate::refusal::PlanRefusal;
use affected_subjects::{Reach, reach_of};
use cell_spec::{Key, Rows};
use chain_topo::Steps;
use edit_laws::refusals_tell_what_a_cell_takes;
use edit_sets::EditSet;
use s57_types::Duplicate;
use std::alloc::{AllocError, Global};
use std::marker::Model;
use std::mem;
use std::sync::ledger::Ledger;

/// The bench that edits leave. It is seen as the edited cell.
#[derive(Drop)]
pub struct BenchPlan {
    next: Bench,
}

impl Model for BenchPlan {
    ghost use Rattle.s57_types.specs.declared.cell.Cell.{Cell as SpecCell};

    ghost Value = { SpecCell };

    ghost view = { λ plan. plan.next };
}

impl Duplicate for BenchPlan {
    /// The same plan, which shares what it holds. An `Err` says that it can't be counted any more.
    fn copy(&self, alloc: Global) -> Result<BenchPlan, AllocError> {
        Ok(BenchPlan {
            next: self.next.copy(alloc)?,
        })
    }
}

impl Bench {
    /// The bench after edits, with all the memory that installing it takes. Only what the edits can change is judged, and of that nothing
    /// for which a row that holds none of the stale keys is ready.
    ///
    /// An `Err` tells why the cell doesn't take the edits, or is out of memory.
    pub fn plan<L: Ledger>(
        &self,
        alloc: Global,
        edits: &EditSet,
        ready: &Rows,
        stale: &[Key],
        steps: &mut Steps<L>,
    ) -> Result<BenchPlan, PlanRefusal>
        requires level { edits.now.nall ≡ self.now.head.nall }
        requires ready { AreReady self.now edits.now.edits stale.now ready.now }
        ensures planned { MatchResult result (IsPlanned self.now edits.now.edits) (IsPlanRefusal self.now edits.now.edits) }
        ensures steps { steps.new ≤ steps.old + plan_budget edits.now.edits self.now stale.now ready.now }
        ensures few { steps.new ≤ steps.old + planning_look_ups edits.now.edits self.now stale.now ready.now }
    {
        refusals_tell_what_a_cell_takes();
        need_room(alloc, self.store(), edits, steps)?;
        let indexed = self.indexed.next(alloc, edits, ready, stale, steps)?;
        let next = Bench::make(alloc, indexed)?;
        Ok(BenchPlan { next })
    }

    /// Whether the cell takes edits: each finds its record, and the edited cell has neither too many records nor too long a head. How
    /// many findings that has isn't asked. It looks up the name of each edit.
    ///
    /// An `Err` is out of memory.
    pub fn takes<L: Ledger>(
        &self,
        alloc: Global,
        edits: &EditSet,
        steps: &mut Steps<L>,
    ) -> Result<bool, AllocError>
        requires { edits.now.nall ≡ self.now.head.nall }
        ensures taken { IfOk result (λ taken. taken ≡ is_applicable edits.now.edits self.now) }
        ensures steps { steps.new ≤ steps.old + length edits.now.edits }
    {
        refusals_tell_what_a_cell_takes();
        match need_room(alloc, self.store(), edits, steps) {
            Ok(()) => Ok(true),
            Err(PlanRefusal::State(_)) => Ok(false),
            Err(PlanRefusal::NoMemory) => Err(AllocError),
        }
    }

    /// What edits that find their records reach. It looks up the name of each edit, and the bearers of each touched identifier.
    ///
    /// An `Err` is out of memory.
    pub fn reach<L: Ledger>(
        &self,
        alloc: Global,
        edits: &EditSet,
        steps: &mut Steps<L>,
    ) -> Result<Reach, AllocError>
        requires level { edits.now.nall ≡ self.now.head.nall }
        requires found { find_their_records edits.now.edits self.now ≡ true }
        ensures reach { IfOk result (IsReachOf edits.now.edits self.now) }
        ensures steps { steps.new ≤ steps.old + length edits.now.edits + length (touched_keys edits.now.edits self.now) }
    {
        let reach = reach_of(
            alloc,
            self.store(),
            self.indexed.tiles(),
            self.indexed.reads(),
            edits,
            steps,
        )?;
        Ok(reach)
    }

    /// The bench after edits that the cell takes, from what they reach and from the rows of all affected subjects of the edited cell, in
    /// their order. Nothing is judged.
    ///
    /// An `Err` says that the edited cell has too many findings, or is out of memory.
    pub fn plan_judged(
        &self,
        alloc: Global,
        edits: &EditSet,
        reach: Reach,
        rows: &Rows,
    ) -> Result<BenchPlan, PlanRefusal>
        requires level { edits.now.nall ≡ self.now.head.nall }
        requires taken { is_applicable edits.now.edits self.now ≡ true }
        requires reach { IsReachOf edits.now.edits self.now reach }
        requires rows { rows.now ≡ map (exact_row (apply_edits edits.now.edits self.now)) (affected_list (change_by edits.now.edits self.now)) }
        ensures { MatchResult result (IsPlanned self.now edits.now.edits) (IsPlanRefusal self.now edits.now.edits) }
    {
        refusals_tell_what_a_cell_takes();
        let indexed = self.indexed.next_judged(alloc, edits, reach, rows)?;
        let next = Bench::make(alloc, indexed)?;
        Ok(BenchPlan { next })
    }

    /// Takes the memory that installing a plan takes: none, since a plan has it.
    pub fn reserve(&mut self, _alloc: Global, _plan: &BenchPlan) -> Result<(), AllocError>
        ensures ok { IsOk result }
        ensures same { self.new ≡ self.old }
    {
        Ok(())
    }

    /// Becomes the bench that was planned.
    pub fn install(&mut self, plan: BenchPlan)
        ensures { self.new ≡ plan }
    {
        *self = plan.next;
    }

    /// Becomes the bench that was planned, and hands out what it was.
    pub fn replace(&mut self, plan: BenchPlan) -> Bench
        ensures new { self.new ≡ plan }
        ensures old { result ≡ self.old }
    {
        mem::replace(self, plan.next)
    }
}
