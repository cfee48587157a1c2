//! A commit to which memory is refused leaves the log as it was. `benches/refusals/run.sh` refuses each allocation of this test in turn.

ghost use Rattle.std.specs.Prelude.{◌≡◌, ◌≤◌, ◌<◌, [], IfOk, IfSome, length};
ghost use Rattle.std.specs.Option.{option_copied};
ghost use Rattle.commit_book.specs.Books.{history_of};
ghost use Rattle.commit_book.specs.Prepared.{AreRight};

use super::books::{open_book, prepared_early, prepared_late};
use cell_bench::Bench;
use chain_topo::Steps;
use commit_book::{Book, BookRefusal, Brief, Prepared};
use look_counter::start_counter;
use s57_types::Duplicate;
use std::alloc::AllocError;
use std::marker::Brand;
use std::process::Abort;
use std::sync::ledger::{Blank, Ledger};
use std::test::Fail;
use std::thread::Threads;

/// What a log shows of itself: its entries, its commits, and the findings of its cell.
fn shown(book: &Book) -> (usize, u32, u32) {
    (
        book.entries().len(),
        book.commits(),
        book.bench().finding_count(),
    )
}

/// Commits what was prepared, and tells whether memory was refused. The log is as before then, and takes the commit when it is made again.
fn commit_again<L: Ledger>(
    rt: &(impl Abort + AllocGlobal),
    book: &mut Book,
    prepared: &Prepared,
    steps: &mut Steps<L>,
) -> bool
    requires base { prepared.now.base ≤ length (history_of book.old).commits }
    requires level { prepared.now.edits.nall ≡ book.old.opening.head.nall }
    requires rows { AreRight book.old.opening book.old.entries prepared.now }
    ensures { book.new.opening ≡ book.old.opening }
{
    let before = shown(book);
    match book.commit(rt.alloc(), 1, prepared, steps) {
        Ok(_) => return false,
        Err(why) => assert_eq!(rt; why, BookRefusal::NoMemory),
    }
    assert_eq!(rt; shown(book), before);
    assert!(rt; book.commit(rt.alloc(), 1, prepared, steps).is_ok());
    true
}

/// Commits deletions that are prepared on the newest cell, or on the opening cell where that is handed in.
fn commit_deletions<R: Threads + Abort + AllocGlobal + Sync, L: Ledger>(
    rt: &R,
    book: &mut Book,
    opening: Option<&Bench>,
    nodes: &[u32],
    steps: &mut Steps<L>,
) -> Result<bool, AllocError>
    requires { IfSome (option_copied opening) (λ cell. cell ≡ book.old.opening) }
    ensures { IfOk result (λ _. book.new.opening ≡ book.old.opening) }
{
    match opening {
        Some(opening) => {
            let prepared = prepared_early(rt, rt.alloc(), book, opening, nodes)?;
            Ok(commit_again(rt, book, &prepared, steps))
        }
        None => {
            let prepared = prepared_late(rt, rt.alloc(), book, nodes)?;
            Ok(commit_again(rt, book, &prepared, steps))
        }
    }
}

/// Commits deletions one after the other, and tells whether memory was refused to one of them: two are accepted, one meets a newer commit, and one
/// finds no record.
fn commit_all<R: Threads + Abort + AllocGlobal + Sync, L: Ledger>(
    rt: &R,
    book: &mut Book,
    opening: &Bench,
    steps: &mut Steps<L>,
) -> Result<bool, AllocError>
    requires { opening.now ≡ book.old.opening }
{
    let first = commit_deletions(rt, book, None, &[1], steps)?;
    let second = commit_deletions(rt, book, Some(opening), &[2], steps)?;
    let third = commit_deletions(rt, book, Some(opening), &[1], steps)?;
    let last = commit_deletions(rt, book, None, &[1], steps)?;
    Ok(first || second || third || last)
}

/// Checks which answers a log has.
fn check_answers(rt: &impl Abort, book: &Book) {
    for (place, entry) in book.entries().iter().enumerate() {
        assert!(rt;
            match entry.brief {
                Brief::Accepted { number, .. } => number as usize == place + 1,
                Brief::Newer { number, .. } => place == 2 && number == 1,
                Brief::Refused(_) => place == 3,
                _ => false,
            }
        );
    }
    assert_eq!(rt; (book.entries().len(), book.commits()), (4, 2));
}

/// The same on a log without entries.
fn commit_from_opening<L: Ledger>(
    rt: &(impl Threads + Abort + AllocGlobal + Sync),
    book: &mut Book,
    steps: &mut Steps<L>,
) -> Result<bool, AllocError>
    requires { book.old.entries ≡ [] }
{
    let opening = book.bench().copy(rt.alloc())?;
    commit_all(rt, book, &opening, steps)
}

/// How the commits fare on a new log.
fn check_commits<L: Ledger>(
    rt: &(impl Threads + Abort + AllocGlobal + Sync),
    blank: Blank,
) -> Result<bool, AllocError>
    requires name { blank.name ≡ L.name }
    requires parts { blank.parts ≡ L.parts }
    requires some_part { 0 < L.parts }
{
    let mut steps = start_counter::<L>(blank);
    let mut book = open_book(rt, rt.alloc(), &mut steps)?;
    let refused = commit_from_opening(rt, &mut book, &mut steps);
    if refused.is_ok() {
        check_answers(rt, &book);
    }
    refused
}

/// All memory is there here. Where one allocation is refused, it is a commit's, which is made again, or it stands outside of commits.
#[test]
fn a_refused_commit_is_made_again(rt: HostRuntime) -> Result<(), Fail> {
    match check_commits::<Brand>(&rt, Blank::new(1)) {
        Ok(false) => println!(rt; "no commit was refused")?,
        Ok(true) => println!(rt; "a commit was refused and made again")?,
        Err(AllocError) => println!(rt; "memory was refused outside of commits")?,
    }
    Ok(())
}
