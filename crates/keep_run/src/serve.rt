//! A command of a session over a journal.

ghost use Rattle.std.specs.Prelude.{◌≡◌, ◌≤◌, ◌<◌, ◌↔◌, ◌∷◌, [], IfErr, IfSome, IsSome, OnOk, false, length};
ghost use Rattle.book_journal.specs.Standing.{IsStill};
ghost use Rattle.commit_book.specs.Books.{entry_limit};
ghost use Rattle.crash_disk.specs.Disk.{LeavesOnly};
ghost use Rattle.keep_run.specs.Sessions.{IsAround, IsDone, IsFit, draft_of, event_by};
ghost use Rattle.keep_run.specs.Stops.{IsStop};

use crate::ask::see;
use crate::session::Session;
use book_journal::{Journal, KeepRefusal};
use chain_topo::Steps;
use crash_disk::Disk;
use std::alloc::Global;
use std::sync::ledger::Ledger;
use std::thread::Threads;
use text_spec::Command;

/// Does a command of the one session. An accepted commit is on the disk before its line is written.
pub(crate) fn serve<R: Threads + Sync, L: Ledger, D: Disk>(
    rt: &R,
    alloc: Global,
    journal: &mut Journal<'_, D>,
    session: &mut Session,
    command: &Command,
    steps: &mut Steps<L>,
) -> Result<(), KeepRefusal>
    requires still { IsStill D.content D.images journal.old }
    requires whole { journal.old.broken ≡ false }
    requires room { length journal.old.book.entries < entry_limit }
    requires fit { IsFit (draft_of session.old) (command.now ∷ []) }
    ensures still { IsStill D.content D.images journal.new }
    ensures same_reference { journal.new.disk.ghost_name ≡ journal.old.disk.ghost_name }
    ensures whole { OnOk result (journal.new.broken ≡ false) }
    ensures stays_told { IsSome (D.content journal.new.disk.now) ↔ IsSome (D.content journal.old.disk.now) }
    ensures ok { OnOk result (IsDone journal.old.book session.old command.now journal.new.book session.new) }
    ensures err { IfErr result (IsStop (D.faults journal.old.disk.now) (D.faults journal.new.disk.now)) }
    ensures counted { OnOk result (D.faults journal.new.disk.now ≡ D.faults journal.old.disk.now) }
    ensures moments { IfSome (D.content journal.old.disk.now)
        (λ _. LeavesOnly D.moment D.left_since journal.old.disk.now journal.new.disk.now
        (IsAround journal.old.book (event_by journal.old.book session.old command.now))) }
    ensures no_fall { D.faults journal.old.disk.now ≤ D.faults journal.new.disk.now }
{
    match command {
        Command::View => {
            let reply = see(alloc, journal)?;
            session.tell(reply)?;
        }
        Command::Commit => {
            let reply = session.commit(rt, alloc, journal, steps)?;
            session.clear(alloc);
            session.tell(reply)?;
        }
        Command::Drop => {
            session.clear(alloc);
            session.transcript.push_draft(0)?;
        }
        Command::List(shown) => {
            let book = journal.book();
            session
                .transcript
                .push_list(book.commits(), *shown, book.bench())?;
        }
        Command::Push(edit) => session.push_edit(alloc, edit)?,
        Command::Guard(name) => session.push_guard(*name)?,
    }
    Ok(())
}
