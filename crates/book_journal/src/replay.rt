//! The commits of a list of entries, taken into a book one after the other.

ghost use Rattle.std.specs.Prelude.{◌≡◌, ◌<◌, ◌≤◌, ◌^◌, [], IfOk, MatchResult, length};
ghost use Rattle.cell_bench.specs.Benches.{IsLoadRefusal};
ghost use Rattle.cell_spec.specs.Writable.{IsWritable};
ghost use Rattle.commit_book.specs.Books.{IsOpened, history_of};
ghost use Rattle.book_journal.specs.Keeping.{commit_limit};
ghost use Rattle.book_journal.specs.Replaying.{IsBenchTaken, IsBookTaken, IsBookTo, IsCounted, IsFilled, IsListRefusal, IsReplayRefusal, IsReplayed};

use crate::entry::{front_entry, is_marked};
use crate::refusal::OpenRefusal;
use crate::reply::is_accepted;
use crate::text::read_set;
use cell_bench::{Bench, PlanRefusal};
use cell_spec::Rows;
use chain_topo::Steps;
use commit_book::{Book, LoadRefusal};
use recheck::{load, prepare};
use s57_types::{Cell, Duplicate};
use std::alloc::{AllocError, Global};
use std::sync::ledger::Ledger;
use std::thread::Threads;

/// The most commits of a journal that is opened.
pub(crate) const COMMIT_LIMIT: u32 = 950_000;

/// Commits the edits that a text is to a book, and tells whether the book accepts them.
///
/// An `Err` means out of memory.
fn take_entry<R: Threads + Sync, L: Ledger>(
    rt: &R,
    alloc: Global,
    book: &mut Book,
    desk: u32,
    text: &[u8],
    steps: &mut Steps<L>,
) -> Result<bool, AllocError>
    requires text { length text.now < 2 ^ 32 }
    requires room { length book.old.entries ≤ commit_limit }
    ensures { IfOk result (IsBookTaken book.old desk text.now book.new) }
{
    book.known();
    let level = book.bench().head().nall;
    let Some(set) = read_set(alloc, text, level)? else {
        return Ok(false);
    };
    let base = book.commits();
    let prepared = prepare(rt, alloc, book.bench(), base, set)?;
    match book.answer_commit(alloc, desk, &prepared, steps) {
        Ok(answered) => Ok(is_accepted(&answered.reply)),
        Err(_) => Err(AllocError),
    }
}

/// Takes the first commits of a list into a book, at most so many as a journal that is opened may have, and gives what follows them.
///
/// An `Err` tells the place of a damaged entry, or means out of memory.
fn fill_book<'a, R: Threads + Sync, L: Ledger>(
    rt: &R,
    alloc: Global,
    book: &mut Book,
    bytes: &'a [u8],
    steps: &mut Steps<L>,
) -> Result<&'a [u8], OpenRefusal>
    requires opened { book.old.entries ≡ [] }
    requires more { 1 < length bytes.now }
    ensures { MatchResult result (λ rest. IsFilled book.old.opening bytes.now book.new rest.now) (IsListRefusal book.old.opening bytes.now) }
{
    let mut rest = bytes;
    while book.commits() < COMMIT_LIMIT {
        let Some(entry) = front_entry(rest) else {
            return Ok(rest);
        };
        if !take_entry(rt, alloc, book, entry.desk, entry.text, steps)? {
            return Err(OpenRefusal::BadJournal((bytes.len() - rest.len()) as u64));
        }
        rest = entry.rest;
    }
    Ok(rest)
}

/// Takes the edits that a text is into a bench, and tells whether its cell takes them.
///
/// An `Err` means out of memory.
fn take_edits<L: Ledger>(
    alloc: Global,
    bench: &mut Bench,
    text: &[u8],
    steps: &mut Steps<L>,
) -> Result<bool, AllocError>
    requires { length text.now < 2 ^ 32 }
    ensures { IfOk result (IsBenchTaken bench.old text.now bench.new) }
{
    let Some(set) = read_set(alloc, text, bench.head().nall)? else {
        return Ok(false);
    };
    match bench.plan(alloc, &set, &Rows::make(alloc), &[], steps) {
        Ok(plan) => {
            bench.install(plan);
            Ok(true)
        }
        Err(PlanRefusal::State(_)) => Ok(false),
        Err(PlanRefusal::NoMemory) => Err(AllocError),
    }
}

/// How many commits a list has behind those that a book took, up to its end. No book is asked, since it has no room for all of them.
///
/// An `Err` tells the place of a damaged entry, or means out of memory.
fn count_rest<L: Ledger>(
    alloc: Global,
    book: &Book,
    bytes: &[u8],
    rest: &[u8],
    steps: &mut Steps<L>,
) -> Result<u64, OpenRefusal>
    requires to { IsBookTo book.now.opening bytes.now book.now rest.now }
    requires more { 1 < length bytes.now }
    ensures { MatchResult result (IsCounted book.now.opening bytes.now (length (history_of book.now).commits) rest.now)
        (IsListRefusal book.now.opening bytes.now) }
{
    let mut bench = book.bench().copy(alloc)?;
    let mut left = rest;
    let mut count = 0;
    while let Some(entry) = front_entry(left) {
        if !take_edits(alloc, &mut bench, entry.text, steps)? {
            return Err(OpenRefusal::BadJournal((bytes.len() - left.len()) as u64));
        }
        left = entry.rest;
        count += 1;
    }
    if is_marked(left) {
        return Err(OpenRefusal::BadJournal((bytes.len() - left.len()) as u64));
    }
    Ok(count)
}

/// The book of a writable cell before its first commit.
fn opened<R: Threads + Sync>(rt: &R, alloc: Global, cell: Cell) -> Result<Book, LoadRefusal>
    requires { IsWritable cell }
    ensures { MatchResult result (IsOpened cell) (IsLoadRefusal cell) }
{
    let bench = load(rt, alloc, cell)?;
    Ok(Book::of_bench(alloc, bench))
}

/// The book of the commits of a journal, and the place where their list ends.
///
/// An `Err` says that the cell has more findings than the limit, tells the place of a damaged entry or how many commits there are, where
/// these are over the limit, or means out of memory.
pub(crate) fn replay<R: Threads + Sync, L: Ledger>(
    rt: &R,
    alloc: Global,
    cell: Cell,
    bytes: &[u8],
    steps: &mut Steps<L>,
) -> Result<(Book, u64), OpenRefusal>
    requires { IsWritable cell }
    ensures { MatchResult result (λ replayed. IsReplayed cell bytes.now replayed.0 replayed.1) (IsReplayRefusal cell bytes.now) }
{
    let mut book = opened(rt, alloc, cell)?;
    if bytes.len() <= 1 {
        return Ok((book, 0));
    }
    let rest = fill_book(rt, alloc, &mut book, bytes, steps)?;
    let count = count_rest(alloc, &book, bytes, rest, steps)?;
    if count > 0 {
        return Err(OpenRefusal::JournalFull(u64::from(book.commits()) + count));
    }
    Ok((book, (bytes.len() - rest.len()) as u64))
}
