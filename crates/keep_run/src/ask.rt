//! What a session asks of a journal: the one desk, whose base is the newest commit at every moment, since nobody else commits.

ghost use Rattle.std.specs.Prelude.{◌≡◌, ◌<◌, ◌≤◌, ◌↔◌, IfErr, IfOk, IfSome, IsSome, OnOk, false, length};
ghost use Rattle.book_journal.specs.Entries.{HaveLines, edit_lines, text_limit};
ghost use Rattle.book_journal.specs.Standing.{IsStill};
ghost use Rattle.commit_book.specs.Books.{entry_limit, history_of};
ghost use Rattle.crash_disk.specs.Disk.{LeavesOnly};
ghost use Rattle.history_spec.specs.Steps.{commit as commit_event, faulty, view};
ghost use Rattle.keep_run.specs.Sessions.{IsAround, IsEntered, IsUnasked, offered};
ghost use Rattle.keep_run.specs.Stops.{IsReplyOf, IsStop};
ghost use Rattle.text_spec.specs.ScriptLines.{command_limit};

use crate::session::Session;
use book_journal::{Journal, KeepRefusal};
use chain_topo::Steps;
use commit_book::{BookRefusal, Told};
use crash_disk::Disk;
use edit_sets::{EditSet, FormFault, FormRefusal};
use history_spec::Reply;
use recheck::prepare;
use std::alloc::Global;
use std::sync::ledger::Ledger;
use std::thread::Threads;

/// The number of the one desk.
pub(crate) const DESK: u32 = 1;

/// The answer of a log that isn't full.
fn reply_of(told: Result<Told, BookRefusal>) -> Result<Reply, KeepRefusal>
    requires { IfErr told (λ why. why ≡ BookRefusal.NoMemory) }
    ensures ok { IfOk result (IsReplyOf told) }
    ensures err { IfErr result (λ why. why ≡ KeepRefusal.NoMemory) }
{
    match told {
        Ok(told) => Ok(told.reply),
        Err(BookRefusal::NoMemory) => Err(KeepRefusal::NoMemory),
        Err(BookRefusal::LogFull) => unreachable!(),
    }
}

/// Asks for the newest state.
pub(crate) fn see<D: Disk>(
    alloc: Global,
    journal: &mut Journal<'_, D>,
) -> Result<Reply, KeepRefusal>
    requires still { IsStill D.content D.images journal.old }
    requires room { length journal.old.book.entries < entry_limit }
    ensures still { IsStill D.content D.images journal.new }
    ensures unasked { IsUnasked journal.old journal.new }
    ensures ok { IfOk result (IsEntered journal.old.book view journal.new.book) }
    ensures err { IfErr result (λ why. why ≡ KeepRefusal.NoMemory) }
{
    let base = journal.book().commits();
    reply_of(journal.view(alloc, DESK, base))
}

/// Tells the fault of the session's draft.
fn tell_fault<D: Disk>(
    alloc: Global,
    journal: &mut Journal<'_, D>,
    fault: FormFault,
) -> Result<Reply, KeepRefusal>
    requires still { IsStill D.content D.images journal.old }
    requires room { length journal.old.book.entries < entry_limit }
    ensures still { IsStill D.content D.images journal.new }
    ensures unasked { IsUnasked journal.old journal.new }
    ensures ok { IfOk result (IsEntered journal.old.book (faulty fault) journal.new.book) }
    ensures err { IfErr result (λ why. why ≡ KeepRefusal.NoMemory) }
{
    reply_of(journal.faulty(alloc, DESK, fault))
}

/// Commits an edit set on the newest commit, and has it on the disk where it is accepted.
fn keep_set<R: Threads + Sync, L: Ledger, D: Disk>(
    rt: &R,
    alloc: Global,
    journal: &mut Journal<'_, D>,
    set: EditSet,
    steps: &mut Steps<L>,
) -> Result<Reply, KeepRefusal>
    requires still { IsStill D.content D.images journal.old }
    requires whole { journal.old.broken ≡ false }
    requires room { length journal.old.book.entries < entry_limit }
    requires level { set.nall ≡ (history_of journal.old.book).cell.head.nall }
    requires lines { HaveLines set.edits }
    requires short { length (edit_lines set.edits) ≤ text_limit }
    ensures still { IsStill D.content D.images journal.new }
    ensures same_reference { journal.new.disk.ghost_name ≡ journal.old.disk.ghost_name }
    ensures whole { OnOk result (journal.new.broken ≡ false) }
    ensures stays_told { IsSome (D.content journal.new.disk.now) ↔ IsSome (D.content journal.old.disk.now) }
    ensures ok { IfOk result (IsEntered journal.old.book
        (commit_event (length (history_of journal.old.book).commits) set.edits set.guards) journal.new.book) }
    ensures err { IfErr result (IsStop (D.faults journal.old.disk.now) (D.faults journal.new.disk.now)) }
    ensures counted { OnOk result (D.faults journal.new.disk.now ≡ D.faults journal.old.disk.now) }
    ensures moments { IfSome (D.content journal.old.disk.now)
        (λ _. LeavesOnly D.moment D.left_since journal.old.disk.now journal.new.disk.now
        (IsAround journal.old.book (commit_event (length (history_of journal.old.book).commits) set.edits set.guards))) }
    ensures no_fall { D.faults journal.old.disk.now ≤ D.faults journal.new.disk.now }
{
    let book = journal.book();
    book.known();
    let prepared = prepare(rt, alloc, book.bench(), book.commits(), set)?;
    Ok(journal.answer_commit(alloc, DESK, &prepared, steps)?)
}

impl Session {
    /// Commits the draft on the newest commit, or tells the draft's fault of form.
    pub(crate) fn commit<R: Threads + Sync, L: Ledger, D: Disk>(
        &self,
        rt: &R,
        alloc: Global,
        journal: &mut Journal<'_, D>,
        steps: &mut Steps<L>,
    ) -> Result<Reply, KeepRefusal>
        requires still { IsStill D.content D.images journal.old }
        requires whole { journal.old.broken ≡ false }
        requires room { length journal.old.book.entries < entry_limit }
        requires lines { HaveLines self.now.edits.items }
        requires short { length (edit_lines self.now.edits.items) ≤ text_limit }
        requires few { length self.now.edits.items ≤ command_limit }
        requires few_guards { length self.now.guards.items ≤ command_limit }
        ensures still { IsStill D.content D.images journal.new }
        ensures same_reference { journal.new.disk.ghost_name ≡ journal.old.disk.ghost_name }
        ensures whole { OnOk result (journal.new.broken ≡ false) }
        ensures stays_told { IsSome (D.content journal.new.disk.now) ↔ IsSome (D.content journal.old.disk.now) }
        ensures ok { IfOk result (IsEntered journal.old.book (offered journal.old.book self.now) journal.new.book) }
        ensures err { IfErr result (IsStop (D.faults journal.old.disk.now) (D.faults journal.new.disk.now)) }
        ensures counted { OnOk result (D.faults journal.new.disk.now ≡ D.faults journal.old.disk.now) }
        ensures moments { IfSome (D.content journal.old.disk.now)
            (λ _. LeavesOnly D.moment D.left_since journal.old.disk.now journal.new.disk.now
            (IsAround journal.old.book (offered journal.old.book self.now))) }
        ensures no_fall { D.faults journal.old.disk.now ≤ D.faults journal.new.disk.now }
    {
        let nall = journal.book().bench().head().nall;
        match EditSet::make(alloc, &self.edits, &self.guards, nall) {
            Ok(set) => keep_set(rt, alloc, journal, set, steps),
            Err(FormRefusal::Fault(fault)) => tell_fault(alloc, journal, fault),
            Err(FormRefusal::NoMemory) => Err(KeepRefusal::NoMemory),
        }
    }
}
