//! A journal opened, a script run over it, and its text.

ghost use Rattle.std.specs.Prelude.{◌≡◌, ◌≤◌, ◌<◌, ◌^◌, ◌↔◌, IfErr, IfOk, IfSome, IsSome, OnOk, false, length};
ghost use Rattle.book_journal.specs.{Keeping.{IsStanding, commit_limit}, Standing.{IsStill}};
ghost use Rattle.cell_spec.specs.Writable.{IsWritable};
ghost use Rattle.commit_book.specs.Books.{history_of};
ghost use Rattle.crash_disk.specs.Disk.{LeavesOnly};
ghost use Rattle.call_files.specs.Inputs.{IsScriptWithin};
ghost use Rattle.history_spec.specs.Steps.{finding_limit};
ghost use Rattle.rule_spec.specs.Findings.{finding_total};
ghost use Rattle.keep_run.specs.{Causes.{TellsDisk}, Keeps.{IsKeepEnd, IsKept, IsKeptImage, IsKeptOn, IsOpenEnd, status_of as spec_status_of, stop_status}};
ghost use Rattle.keep_run.specs.{Runs.{IsKeptTo}, Stops.{IsStop, IsStopOf}};

use crate::report::{Kept, report};
use crate::serve::serve;
use crate::session::Session;
use book_journal::{Journal, KeepRefusal, OpenRefusal, open_book};
use chain_topo::Steps;
use commit_book::Book;
use crash_disk::Disk;
use look_counter::start_counter;
use report_text::Status;
use s57_types::Cell;
use script_text::Script;
use std::alloc::Global;
use std::sync::ledger::{Blank, Ledger};
use std::thread::Threads;

/// The status of a journal that isn't opened. Its cell has not too many findings.
fn status_of(why: OpenRefusal) -> Status
    requires { IsOpenEnd why }
    ensures { result ≡ spec_status_of why }
{
    match why {
        OpenRefusal::BadJournal(place) => Status::BadJournal(place),
        OpenRefusal::DiskFault => Status::DiskFault,
        OpenRefusal::JournalFull(count) => Status::JournalFull(count),
        OpenRefusal::NoMemory => Status::NoMemory,
        OpenRefusal::FindingsFull => unreachable!(),
    }
}

/// The status of a session that doesn't go on. Its journal is whole, no text of its edits is too long, and its log isn't full.
fn status_of_stop(why: KeepRefusal) -> Status
    requires { IsStopOf why }
    ensures { result ≡ stop_status why }
{
    match why {
        KeepRefusal::DiskFault => Status::DiskFault,
        KeepRefusal::NoMemory => Status::NoMemory,
        KeepRefusal::Broken | KeepRefusal::EntryTooLong(_) | KeepRefusal::LogFull => {
            unreachable!()
        }
    }
}

/// Runs a script over a journal that was opened, and tells what it leaves of the disk.
///
/// An `Err` says that a call of the disk failed, or means out of memory.
fn run_kept<R: Threads + Sync, L: Ledger, D: Disk>(
    rt: &R,
    alloc: Global,
    journal: &mut Journal<'_, D>,
    script: &Script,
    steps: &mut Steps<L>,
) -> Result<Kept, KeepRefusal>
    requires still { IsStill D.content D.images journal.old }
    requires whole { journal.old.broken ≡ false }
    requires entries { length journal.old.book.entries ≡ length (history_of journal.old.book).commits }
    requires few { length (history_of journal.old.book).commits ≤ commit_limit }
    requires within { IsScriptWithin script.now }
    ensures same_reference { journal.new.disk.ghost_name ≡ journal.old.disk.ghost_name }
    ensures stays_told { IsSome (D.content journal.new.disk.now) ↔ IsSome (D.content journal.old.disk.now) }
    ensures ok { IfOk result (IsKeptOn journal.old.book.opening (history_of journal.old.book).commits script.now
        (D.content journal.new.disk.now) (D.images journal.new.disk.now)) }
    ensures err { IfErr result (IsStop (D.faults journal.old.disk.now) (D.faults journal.new.disk.now)) }
    ensures counted { OnOk result (D.faults journal.new.disk.now ≡ D.faults journal.old.disk.now) }
    ensures moments { IfSome (D.content journal.old.disk.now)
        (λ _. LeavesOnly D.moment D.left_since journal.old.disk.now journal.new.disk.now
        (IsKeptTo journal.old.book.opening (history_of journal.old.book).commits script.now)) }
    ensures no_fall { D.faults journal.old.disk.now ≤ D.faults journal.new.disk.now }
{
    let count = journal.book().commits();
    let mut session = Session::make(alloc);
    for command in script.commands() {
        serve(rt, alloc, journal, &mut session, command, steps)?;
    }
    let transcript = session.into_transcript();
    Ok(report(alloc, count, &transcript, journal.book())?)
}

/// Runs a script over the journal on a disk, whose commits a book has, and whose list ends at a place.
fn run_over<R: Threads + Sync, L: Ledger, D: Disk>(
    rt: &R,
    alloc: Global,
    disk: &mut D,
    book: Book,
    end: u64,
    script: &Script,
    steps: &mut Steps<L>,
) -> Result<Kept, KeepRefusal>
    requires room { end < 2 ^ 63 }
    requires standing { IfSome (D.content disk.old) (IsStanding book.opening (history_of book).commits end (D.images disk.old)) }
    requires entries { length book.entries ≡ length (history_of book).commits }
    requires few { length (history_of book).commits ≤ commit_limit }
    requires within { IsScriptWithin script.now }
    ensures stays_told { IsSome (D.content disk.new) ↔ IsSome (D.content disk.old) }
    ensures ok { IfOk result (IsKeptOn book.opening (history_of book).commits script.now (D.content disk.new) (D.images disk.new)) }
    ensures err { IfErr result (IsStop (D.faults disk.old) (D.faults disk.new)) }
    ensures counted { OnOk result (D.faults disk.new ≡ D.faults disk.old) }
    ensures moments { IfSome (D.content disk.old)
        (λ _. LeavesOnly D.moment D.left_since disk.old disk.new (IsKeptTo book.opening (history_of book).commits script.now)) }
    ensures no_fall { D.faults disk.old ≤ D.faults disk.new }
{
    let mut journal = Journal::over(disk, book, end);
    let done = run_kept(rt, alloc, &mut journal, script, steps);
    let _disk = journal.into_disk();
    done
}

/// Opens the journal on a disk, over the cell that it began with, and runs a script over it.
///
/// An `Err` is the status of a call of the disk that failed, of a damaged journal or one with too many commits, or of memory that is out.
pub(crate) fn keep<R: Threads + Sync, L: Ledger, D: Disk>(
    rt: &R,
    alloc: Global,
    cell: Cell,
    script: &Script,
    disk: &mut D,
    blank: Blank,
) -> Result<Kept, Status>
    requires writable { IsWritable cell }
    requires few { finding_total cell ≤ finding_limit }
    requires within { IsScriptWithin script.now }
    requires name { blank.name ≡ L.name }
    requires parts { blank.parts ≡ L.parts }
    requires some_part { 0 < L.parts }
    ensures ok { IfOk result (IsKept cell script.now (D.content disk.old) (D.content disk.new) (D.images disk.new)) }
    ensures err { IfErr result (IsKeepEnd cell (D.content disk.old) (D.content disk.new) (D.faults disk.old) (D.faults disk.new)) }
    ensures told_disk { TellsDisk (D.faults disk.old) (D.faults disk.new) result }
    ensures stays_told { IsSome (D.content disk.new) ↔ IsSome (D.content disk.old) }
    ensures moments { IfSome (D.content disk.old)
        (λ file. LeavesOnly D.moment D.left_since disk.old disk.new (IsKeptImage cell script.now file (D.images disk.old))) }
    ensures no_fall { D.faults disk.old ≤ D.faults disk.new }
{
    let mut steps = start_counter::<L>(blank);
    let (book, end) = match open_book(rt, alloc, cell, disk, &mut steps) {
        Ok(opened) => opened,
        Err(why) => return Err(status_of(why)),
    };
    match run_over(rt, alloc, disk, book, end, script, &mut steps) {
        Ok(kept) => Ok(kept),
        Err(why) => Err(status_of_stop(why)),
    }
}
