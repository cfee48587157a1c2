//! Edits as the first commit of a cell's history, and the cell that it leaves.

ghost use Rattle.std.specs.Prelude.{◌≡◌, ◌≤◌, [], IfErr, IfOk, Ok, length, true};
ghost use Rattle.cell_spec.specs.Edits.{find_their_records};
ghost use Rattle.commit_book.specs.Books.{IsEntered, history_of};
ghost use Rattle.commit_book.specs.Prepared.{AreRight, IsAheadRight};
ghost use Rattle.file_spec.specs.DecodedCell.{decoded_cell};
ghost use Rattle.file_spec.specs.EncodedCell.{encoded_cell};
ghost use Rattle.enc_top.specs.Commits.{IsCommitStatus, committed, refusal_told};
ghost use Rattle.call_files.specs.Inputs.{IsJudged};
ghost use Rattle.enc_top.specs.Task.{left_task};
ghost use Rattle.call_files.specs.Task.{task_of};

use call_files::{Export, Work};
use cell_bench::Bench;
use chain_topo::Steps;
use commit_book::{Book, BookRefusal, Prepared, Reply, StateRefusal};
use edit_sets::EditSet;
use history_spec::Asked;
use recheck::prepare;
use report_text::{Status, print_findings};
use std::alloc::{AllocError, Global};
use std::sync::ledger::Ledger;
use std::thread::Threads;

/// The number of the one desk.
const DESK: u32 = 1;

/// The bench of the cell that a commit of edits leaves: the first of the cell's history, with what it changes judged before.
pub(crate) fn commit<R: Threads + Sync, L: Ledger>(
    rt: &R,
    alloc: Global,
    bench: Bench,
    set: EditSet,
    steps: &mut Steps<L>,
) -> Result<Bench, Status>
    requires level { set.nall ≡ bench.head.nall }
    requires no_guards { set.guards ≡ [] }
    requires found { find_their_records set.edits bench ≡ true }
    ensures judged { IsJudged (λ left. left) (committed bench set.edits) result }
    ensures ends { IfErr result IsCommitStatus }
{
    let prepared = prepare(rt, alloc, &bench, 0, set)?;
    let mut book = Book::of_bench(alloc, bench);
    let reply = enter(alloc, &mut book, prepared, steps)?;
    match refusal_of(&reply) {
        Some(refusal) => Err(Status::Refused(refusal)),
        None => Ok(book.into_bench()),
    }
}

/// Enters what was prepared as the first commit of a log, and tells the log's answer.
fn enter<L: Ledger>(
    alloc: Global,
    book: &mut Book,
    prepared: Prepared,
    steps: &mut Steps<L>,
) -> Result<Reply, AllocError>
    requires none { book.old.entries ≡ [] }
    requires base { prepared.base ≤ length (history_of book.old).commits }
    requires level { prepared.edits.nall ≡ book.old.opening.head.nall }
    requires rows { AreRight book.old.opening book.old.entries prepared }
    requires ahead { IsAheadRight book.old.opening book.old.entries prepared }
    ensures { IfOk result (λ reply. IsEntered book.old 1 (Asked.Commit prepared.base prepared.edits) book.new reply) }
{
    match book.answer_commit(alloc, DESK, &prepared, steps) {
        Ok(answered) => Ok(answered.reply),
        Err(BookRefusal::NoMemory) => Err(AllocError),
        Err(BookRefusal::LogFull) => unreachable!(),
    }
}

/// The refusal that an answer tells.
fn refusal_of(reply: &Reply) -> Option<StateRefusal>
    ensures { result ≡ refusal_told reply.now }
{
    match reply {
        Reply::Refused(refusal) => Some(*refusal),
        Reply::Viewed { .. } | Reply::Formed(_) | Reply::Newer { .. } | Reply::Accepted { .. } => {
            None
        }
    }
}

/// The text of a bench's cell, and its file. The bench is given back before the file takes its memory.
pub(crate) fn left_work(alloc: Global, bench: Bench, out: &str) -> Result<Work, AllocError>
    ensures task { IfOk result (λ work. task_of work ≡ left_task bench out.now) }
    ensures read_back { IfOk result (λ work. decoded_cell (encoded_cell bench) ≡ Ok bench) }
{
    let mut text = Vec::new(alloc);
    print_findings(alloc, &bench, &mut text)?;
    let export = Export::of_bench(alloc, bench, out)?;
    Ok(Work {
        text,
        export: Some(export),
    })
}
