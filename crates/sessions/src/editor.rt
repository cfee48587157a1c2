//! A session beside its own copy of the cell.

ghost use Rattle.std.specs.Prelude.{◌≡◌, ◌<◌, [], IfErr, IfOk, List, OnOk, ℕ, count_by, length};
ghost use Rattle.commit_book.specs.Books.{entry_limit, history_of};
ghost use Rattle.history_spec.specs.Entries.{entries_of};
ghost use Rattle.history_spec.specs.ReportText.{base_after};
ghost use Rattle.history_spec.specs.declared.entry.Entry.{Entry};
ghost use Rattle.s57_types.specs.declared.cell.Cell.{Cell};
ghost use Rattle.room_laws.specs.Desks.{copy_after};
ghost use Rattle.sessions.specs.Replays.{IsAskedOf, IsBeside, IsEditor, IsEndedAs, IsReplyOf, IsServedOnce};
ghost use Rattle.text_spec.specs.ScriptLines.{is_shared};

use crate::session::{Session, Shared};
use cell_bench::Bench;
use chain_topo::Steps;
use commit_book::{Answered, Book, BookRefusal};
use edit_sets::FormRefusal;
use history_spec::Reply;
use recheck::prepare;
use report_text::Transcript;
use s57_types::Duplicate;
use script_text::Script;
use std::alloc::{AllocError, Global};
use std::sync::ledger::Ledger;
use std::thread::Threads;

/// A session with its copy of the cell, which is that after its base: the newest that an answer showed it.
pub(crate) struct Editor {
    session: Session,
    base: u32,
    bench: Bench,
}

impl Drop for Editor {
    fn drop(self) {
        let Editor {
            session: _,
            base: _,
            bench: _,
        } = self;
    }
}

/// The answer of a log. A log that isn't full refuses only out of memory.
fn reply_of(answered: Result<Answered, BookRefusal>) -> Result<Reply, AllocError>
    requires { IfErr answered (λ why. why ≡ BookRefusal.NoMemory) }
    ensures { IfOk result (IsReplyOf answered) }
{
    match answered {
        Ok(answered) => Ok(answered.reply),
        Err(BookRefusal::NoMemory) => Err(AllocError),
        Err(BookRefusal::LogFull) => unreachable!(),
    }
}

impl Editor {
    /// The editor of a script, on the cell of a log.
    pub(crate) fn make(alloc: Global, script: Script, book: &Book) -> Result<Editor, AllocError>
        ensures script { IfOk result (λ editor. editor.session.script ≡ script) }
        ensures opened { (number : ℕ) → book.now.entries ≡ [] → IfOk result (IsEditor book.now.opening [] number) }
    {
        Ok(Editor {
            session: Session::make(alloc, script),
            base: 0,
            bench: book.bench().copy(alloc)?,
        })
    }

    /// Commits the session's draft on its base, or tells the draft's fault of form. What the draft changes is judged on the own copy of the
    /// cell before the log is asked.
    fn commit<R: Threads + Sync, L: Ledger>(
        &self,
        rt: &R,
        alloc: Global,
        book: &mut Book,
        number: u32,
        steps: &mut Steps<L>,
    ) -> Result<Reply, AllocError>
        requires room { length book.old.entries < entry_limit }
        requires beside { IsBeside book.old self.now }
        ensures { IfOk result (IsAskedOf book.old number self.now.base self.now.session.draft Shared.Commit book.new) }
    {
        let nall = self.bench.head().nall;
        match self.session.offer(alloc, nall) {
            Ok(set) => {
                let prepared = prepare(rt, alloc, &self.bench, self.base, set)?;
                reply_of(book.answer_commit(alloc, number, &prepared, steps))
            }
            Err(FormRefusal::Fault(fault)) => reply_of(book.answer_faulty(number, fault)),
            Err(FormRefusal::NoMemory) => Err(AllocError),
        }
    }

    /// Asks the log what the session's next command asks.
    fn ask<R: Threads + Sync, L: Ledger>(
        &self,
        rt: &R,
        alloc: Global,
        book: &mut Book,
        number: u32,
        shared: Shared,
        steps: &mut Steps<L>,
    ) -> Result<Reply, AllocError>
        requires room { length book.old.entries < entry_limit }
        requires beside { IsBeside book.old self.now }
        ensures { IfOk result (IsAskedOf book.old number self.now.base self.now.session.draft shared book.new) }
    {
        match shared {
            Shared::View => reply_of(book.answer_view(number)),
            Shared::Commit => self.commit(rt, alloc, book, number, steps),
        }
    }

    /// Goes on to the newest cell, where an answer showed it.
    fn follow(&mut self, alloc: Global, book: &Book, reply: &Reply) -> Result<(), AllocError>
        ensures session { self.new.session ≡ self.old.session }
        ensures base { OnOk result (self.new.base ≡ base_after reply.now self.old.base) }
        ensures bench { OnOk result (self.new.bench ≡ copy_after reply.now (history_of book.now).cell self.old.bench) }
    {
        if let Reply::Viewed { number, .. } | Reply::Accepted { number, .. } = reply {
            self.bench = book.bench().copy(alloc)?;
            self.base = *number;
        }
        Ok(())
    }

    /// Does the session's commands up to its next one that all sessions see, and that one: it is asked of the log under the session's
    /// number, and its answer taken in.
    ///
    /// An `Err` means out of memory.
    pub(crate) fn serve<R: Threads + Sync, L: Ledger>(
        &mut self,
        rt: &R,
        alloc: Global,
        book: &mut Book,
        number: u32,
        steps: &mut Steps<L>,
    ) -> Result<(), AllocError>
        requires room { length book.old.entries < entry_limit }
        requires editor { IsEditor book.old.opening book.old.entries number self.old }
        requires left { length (entries_of number book.old.entries) < count_by is_shared self.old.session.script }
        ensures script { self.new.session.script ≡ self.old.session.script }
        ensures ok { OnOk result (IsServedOnce book.old number book.new self.new) }
    {
        let Some(shared) = self.session.advance(alloc, &self.bench, self.base)? else {
            unreachable!()
        };
        let reply = self.ask(rt, alloc, book, number, shared, steps)?;
        self.session.told(alloc, shared, &reply)?;
        self.follow(alloc, book, &reply)
    }

    /// Its session.
    fn into_session(self) -> Session
        ensures { result ≡ self.session }
    {
        let Editor {
            session,
            base: _,
            bench: _,
        } = self;
        session
    }

    /// Does the commands that are left, none of which all sessions see, and gives the session's lines.
    ///
    /// An `Err` means out of memory.
    pub(crate) fn end(self, alloc: Global) -> Result<Transcript, AllocError>
        ensures { (c : Cell) (entries : List Entry) (number : ℕ) → IsEditor c entries number self
            → length (entries_of number entries) ≡ count_by is_shared self.session.script → IfOk result (IsEndedAs c entries number self.session.script) }
    {
        let mut editor = self;
        editor.session.advance(alloc, &editor.bench, editor.base)?;
        Ok(editor.into_session().into_transcript())
    }
}
