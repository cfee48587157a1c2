//! What is entered: an answer that leaves the cell and its commits as they are, or an accepted commit.

ghost use Rattle.std.specs.Prelude.{◌≡◌, ◌+◌, ◌*◌, ◌≤◌, ◌<◌, Err, IfOk, IfErr, IfSome, MatchResult, None, OnOk, length};
ghost use Rattle.std.specs.Option.{option_copied};
ghost use Rattle.cell_spec.specs.Edits.{apply_edits, touched_keys};
ghost use Rattle.cell_spec.specs.Writable.{IsWritable};
ghost use Rattle.rule_spec.specs.Findings.{finding_total};
ghost use Rattle.answer_laws.specs.EditedAnswers.{FindTheirRecords};
ghost use Rattle.history_spec.specs.Entries.{event_asked};
ghost use Rattle.history_spec.specs.Steps.{answer, newer_answer, state_refusal};
ghost use Rattle.cell_bench.specs.Benches.{IsPlanRefusal, IsPlanned};
ghost use Rattle.commit_book.specs.Books.{HaveLines, IsBookRefusal, IsEntered, IsFull, IsTakenAt, IsVerdict, LeavesCommits, answer_to, entry_limit, history_of};
ghost use Rattle.commit_book.specs.Prepared.{AreRight, CanBePut, IsAheadRight, commit_budget};

use crate::accepted::{Accepted, accepted_after};
use crate::book::Book;
use crate::newer::newer_answer;
use crate::refusal::BookRefusal;
use crate::stale::stale_keys;
use crate::told::{Answered, brief_of};
use answer_laws::{formed_edits_find_their_records, untouched_keys_keep_answers};
use cell_bench::{BenchPlan, PlanRefusal, Prepared};
use cell_spec::writable_cells_are_readable;
use chain_topo::Steps;
use edit_laws::{refusals_tell_what_a_cell_takes, taken_edits_have_lines};
use edit_sets::{EditSet, FormFault};
use finding_laws::valid_rows_stay_exact;
use history_spec::{Asked, Brief, Entry, Reply};
use s57_types::Duplicate;
use std::alloc::{AllocError, Global};
use std::sync::ledger::Ledger;

/// The most entries of a book.
const ENTRY_LIMIT: usize = 1_000_000;

impl Book {
    /// Whether an entry can be added.
    pub(crate) fn need_room(&self) -> Result<(), BookRefusal>
        ensures { MatchResult result (λ _. length self.now.entries < entry_limit) (IsFull self.now.entries) }
    {
        if self.entries.len() >= ENTRY_LIMIT {
            return Err(BookRefusal::LogFull);
        }
        Ok(())
    }

    /// Enters an answer that leaves the cell and its commits as they are.
    pub(crate) fn enter(
        &mut self,
        desk: u32,
        asked: Asked,
        reply: &Reply,
    ) -> Result<(), BookRefusal>
        requires room { length self.old.entries < entry_limit }
        requires answered { reply.now ≡ answer (history_of self.old) (event_asked asked) }
        requires leaves { LeavesCommits reply.now }
        ensures ok { OnOk result (IsEntered self.old desk asked self.new reply.now) }
        ensures err { IfErr result (λ why. (why ≡ BookRefusal.NoMemory) × (self.new ≡ self.old)) }
    {
        self.entries.reserve(1)?;
        let brief = brief_of(reply);
        self.entries.push_reserved(Entry { desk, asked, brief });
        Ok(())
    }

    /// Enters a commit that isn't accepted.
    fn refuse(
        &mut self,
        alloc: Global,
        desk: u32,
        base: u32,
        set: &EditSet,
        reply: &Reply,
    ) -> Result<(), BookRefusal>
        requires room { length self.old.entries < entry_limit }
        requires answered { reply.now ≡ answer_to self.old base set.now }
        requires leaves { LeavesCommits reply.now }
        ensures ok { OnOk result (IsEntered self.old desk (Asked.Commit base set.now) self.new reply.now) }
        ensures err { IfErr result (λ why. (why ≡ BookRefusal.NoMemory) × (self.new ≡ self.old)) }
    {
        let asked = Asked::Commit {
            base,
            edits: set.copy(alloc)?,
        };
        self.enter(desk, asked, reply)
    }

    /// Enters a commit that is accepted, and becomes what was planned. All memory is taken before anything is changed but the places at
    /// names, of which those that aren't of a commit do no harm.
    fn accept(
        &mut self,
        alloc: Global,
        base: u32,
        accepted: Accepted,
        plan: BenchPlan,
    ) -> Result<Answered, BookRefusal>
        requires room { length self.old.entries < entry_limit }
        requires level { accepted.set.nall ≡ self.old.opening.head.nall }
        requires lines { HaveLines accepted.set }
        requires taken { IsTakenAt (history_of self.old).cell accepted }
        requires planned { plan ≡ apply_edits accepted.set.edits (history_of self.old).cell }
        requires answered { answer_to self.old base accepted.set ≡ Reply.Accepted (length (history_of self.old).commits + 1) (finding_total plan) }
        ensures ok { IfOk result (λ answered. IsEntered self.old accepted.desk (Asked.Commit base accepted.set) self.new answered.reply) }
        ensures verdict { IfOk result (λ answered. IsVerdict answered.reply) }
        ensures err { IfErr result (λ why. (why ≡ BookRefusal.NoMemory) × (self.new ≡ self.old)) }
    {
        let desk = accepted.desk;
        let asked = Asked::Commit {
            base,
            edits: accepted.set.copy(alloc)?,
        };
        self.entries.reserve(1)?;
        self.accepted.reserve(1)?;
        self.bench.reserve(alloc, &plan)?;
        let place = self.accepted.len() as u32;
        self.places.note(accepted.set.names(), place)?;
        let replaced = Some(self.bench.replace(plan));
        let number = place + 1;
        let findings = self.bench.finding_count();
        let brief = Brief::Accepted { number, findings };
        self.accepted.push_reserved(accepted);
        self.entries.push_reserved(Entry { desk, asked, brief });
        let reply = Reply::Accepted { number, findings };
        Ok(Answered { reply, replaced })
    }

    /// What was built ahead, where no commit came since.
    fn built_ahead(
        &self,
        alloc: Global,
        prepared: &Prepared,
        ahead: Option<&BenchPlan>,
    ) -> Result<Option<BenchPlan>, AllocError>
        requires { prepared.now.base ≡ length (history_of self.now).commits
            → IfSome (option_copied ahead) (IsPlanned (history_of self.now).cell prepared.now.edits.edits) }
        ensures { IfOk result (λ plan. IfSome plan (IsPlanned (history_of self.now).cell prepared.now.edits.edits)) }
    {
        match ahead {
            Some(plan) if prepared.base() == self.commits() => Ok(Some(plan.copy(alloc)?)),
            _ => Ok(None),
        }
    }

    /// The bench after a commit against which no newer one stands, planned on the newest cell. Of the rows that were prepared those count
    /// that hold no key that a newer commit touched: what they tell of the edited cell of the base they tell of today's. Of the look-ups
    /// that deciding takes one for each edit is left.
    fn planned<L: Ledger>(
        &self,
        alloc: Global,
        prepared: &Prepared,
        steps: &mut Steps<L>,
    ) -> Result<BenchPlan, PlanRefusal>
        requires fits { CanBePut self.now prepared.now }
        requires alone { newer_answer (history_of self.now).commits prepared.now.base prepared.now.edits.edits prepared.now.edits.guards ≡ None }
        ensures planned { MatchResult result (IsPlanned (history_of self.now).cell prepared.now.edits.edits)
            (IsPlanRefusal (history_of self.now).cell prepared.now.edits.edits) }
        ensures steps { steps.new ≤ steps.old + commit_budget self.now prepared.now }
        ensures left { OnOk result (steps.new + length prepared.now.edits.edits ≤ steps.old + commit_budget self.now prepared.now) }
    {
        let set = prepared.edits();
        set.known();
        self.bench.known();
        refusals_tell_what_a_cell_takes();
        writable_cells_are_readable();
        formed_edits_find_their_records();
        untouched_keys_keep_answers();
        valid_rows_stay_exact();
        let newer = accepted_after(self.accepted.as_slice(), prepared.base());
        let stale = stale_keys(alloc, newer)?;
        self.bench.plan(alloc, set, prepared.rows(), &stale, steps)
    }

    /// What is known of edits against which nothing speaks: they find their records, and have lines.
    fn taken(&self, set: &EditSet)
        requires { set.now.nall ≡ self.now.opening.head.nall }
        ensures writable { IsWritable (history_of self.now).cell }
        ensures found { state_refusal (history_of self.now).cell set.now.edits ≡ None → FindTheirRecords set.now.edits (history_of self.now).cell }
        ensures lines { state_refusal (history_of self.now).cell set.now.edits ≡ None → HaveLines set.now }
    {
        set.known();
        self.bench.known();
        taken_edits_have_lines();
        refusals_tell_what_a_cell_takes();
        writable_cells_are_readable();
        formed_edits_find_their_records();
    }

    /// The bench after a commit against which no newer one stands: what was built ahead where no commit came since, or else as it is
    /// planned.
    fn plan<L: Ledger>(
        &self,
        alloc: Global,
        prepared: &Prepared,
        ahead: Option<&BenchPlan>,
        steps: &mut Steps<L>,
    ) -> Result<BenchPlan, PlanRefusal>
        requires fits { CanBePut self.now prepared.now }
        requires ahead { prepared.now.base ≡ length (history_of self.now).commits
            → IfSome (option_copied ahead) (IsPlanned (history_of self.now).cell prepared.now.edits.edits) }
        requires alone { newer_answer (history_of self.now).commits prepared.now.base prepared.now.edits.edits prepared.now.edits.guards ≡ None }
        ensures planned { MatchResult result (IsPlanned (history_of self.now).cell prepared.now.edits.edits)
            (IsPlanRefusal (history_of self.now).cell prepared.now.edits.edits) }
        ensures writable { IsWritable (history_of self.now).cell }
        ensures found { OnOk result (FindTheirRecords prepared.now.edits.edits (history_of self.now).cell) }
        ensures lines { OnOk result (HaveLines prepared.now.edits) }
        ensures steps { steps.new ≤ steps.old + commit_budget self.now prepared.now }
        ensures left { OnOk result (steps.new + length prepared.now.edits.edits ≤ steps.old + commit_budget self.now prepared.now) }
    {
        self.taken(prepared.edits());
        match self.built_ahead(alloc, prepared, ahead)? {
            Some(plan) => Ok(plan),
            None => self.planned(alloc, prepared, steps),
        }
    }

    /// Decides a commit and enters it with its answer. What was built ahead is taken where no commit came since.
    pub(crate) fn enter_commit<L: Ledger>(
        &mut self,
        alloc: Global,
        desk: u32,
        prepared: &Prepared,
        ahead: Option<&BenchPlan>,
        steps: &mut Steps<L>,
    ) -> Result<Answered, BookRefusal>
        requires room { length self.old.entries < entry_limit }
        requires fits { CanBePut self.old prepared.now }
        requires ahead { prepared.now.base ≡ length (history_of self.old).commits
            → IfSome (option_copied ahead) (IsPlanned (history_of self.old).cell prepared.now.edits.edits) }
        ensures ok { IfOk result (λ answered. IsEntered self.old desk (Asked.Commit prepared.now.base prepared.now.edits) self.new answered.reply) }
        ensures verdict { IfOk result (λ answered. IsVerdict answered.reply) }
        ensures err { IfErr result (λ why. (why ≡ BookRefusal.NoMemory) × (self.new ≡ self.old)) }
        ensures steps { steps.new ≤ steps.old + commit_budget self.old prepared.now }
    {
        let base = prepared.base();
        let set = prepared.edits();
        let newer = newer_answer(alloc, &self.accepted, &self.places, base, set)?;
        if let Some(reply) = newer {
            self.refuse(alloc, desk, base, set, &reply)?;
            return Ok(Answered::alone(reply));
        }
        match self.plan(alloc, prepared, ahead, steps) {
            Ok(plan) => {
                let accepted = Accepted::make(alloc, desk, set, &self.bench, steps)?;
                self.accept(alloc, base, accepted, plan)
            }
            Err(PlanRefusal::State(refusal)) => {
                let reply = Reply::Refused(refusal);
                self.refuse(alloc, desk, base, set, &reply)?;
                Ok(Answered::alone(reply))
            }
            Err(PlanRefusal::NoMemory) => Err(BookRefusal::NoMemory),
        }
    }

    /// A view without its news, for a desk that takes a copy of the bench.
    ///
    /// An `Err` is as that of a view.
    pub fn answer_view(&mut self, desk: u32) -> Result<Answered, BookRefusal>
        ensures ok { IfOk result (λ answered. IsEntered self.old desk Asked.View self.new answered.reply) }
        ensures err { IfErr result (λ why. IsBookRefusal self.old.entries why × (self.new ≡ self.old)) }
        ensures full { length self.old.entries ≡ entry_limit → result ≡ Err BookRefusal.LogFull }
    {
        self.need_room()?;
        let reply = Reply::Viewed {
            number: self.commits(),
            findings: self.bench.finding_count(),
        };
        self.enter(desk, Asked::View, &reply)?;
        Ok(Answered::alone(reply))
    }

    /// The answer to a draft with a fault, which has no news.
    ///
    /// An `Err` is as that of a view.
    pub fn answer_faulty(&mut self, desk: u32, fault: FormFault) -> Result<Answered, BookRefusal>
        ensures ok { IfOk result (λ answered. IsEntered self.old desk (Asked.Faulty fault) self.new answered.reply) }
        ensures err { IfErr result (λ why. IsBookRefusal self.old.entries why × (self.new ≡ self.old)) }
        ensures full { length self.old.entries ≡ entry_limit → result ≡ Err BookRefusal.LogFull }
    {
        self.need_room()?;
        let reply = Reply::Formed(fault);
        self.enter(desk, Asked::Faulty(fault), &reply)?;
        Ok(Answered::alone(reply))
    }

    /// A commit without its news, for a desk that takes a copy of the bench. Its rows are right on the cell of its base, and what was built
    /// ahead too, which is taken where no commit came since. Else only what no valid row tells is judged; with no newer commit that is
    /// nothing.
    ///
    /// An `Err` is as that of a view.
    pub fn answer_commit<L: Ledger>(
        &mut self,
        alloc: Global,
        desk: u32,
        prepared: &Prepared,
        steps: &mut Steps<L>,
    ) -> Result<Answered, BookRefusal>
        requires base { prepared.now.base ≤ length (history_of self.old).commits }
        requires level { prepared.now.edits.nall ≡ self.old.opening.head.nall }
        requires rows { AreRight self.old.opening self.old.entries prepared.now }
        requires ahead { IsAheadRight self.old.opening self.old.entries prepared.now }
        ensures ok { IfOk result (λ answered. IsEntered self.old desk (Asked.Commit prepared.now.base prepared.now.edits) self.new answered.reply) }
        ensures verdict { IfOk result (λ answered. IsVerdict answered.reply) }
        ensures err { IfErr result (λ why. IsBookRefusal self.old.entries why × (self.new ≡ self.old)) }
        ensures full { length self.old.entries ≡ entry_limit → result ≡ Err BookRefusal.LogFull }
        ensures steps { steps.new ≤ steps.old + commit_budget self.old prepared.now }
        ensures alone { prepared.now.base ≡ length (history_of self.old).commits → steps.new
            ≤ steps.old + 4 * (length (touched_keys prepared.now.edits.edits (history_of self.old).cell) + length prepared.now.edits.edits) }
    {
        self.need_room()?;
        self.enter_commit(alloc, desk, prepared, prepared.ahead(), steps)
    }
}
