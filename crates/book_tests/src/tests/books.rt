//! A book of a cell of squares, of which one square has the nodes 1 to 4, and commits on it.

ghost use Rattle.std.specs.Prelude.{◌≡◌, ◌≤◌, [], IfOk, length};
ghost use Rattle.rule_spec.specs.Affected.{RowsAreExact};
ghost use Rattle.commit_book.specs.Books.{history_of};
ghost use Rattle.commit_book.specs.Prepared.{AreRight};

use super::edits::{deletions, set_for};
use cell_bench::Bench;
use cell_make::make_cell;
use chain_topo::Steps;
use commit_book::{Book, LoadRefusal, Prepared};
use recheck::prepare;
use std::alloc::{AllocError, Global};
use std::process::Abort;
use std::sync::ledger::Ledger;
use std::thread::Threads;

/// A book without entries, of a cell of one square.
pub(crate) fn open_book<L: Ledger>(
    rt: &impl Abort,
    alloc: Global,
    steps: &mut Steps<L>,
) -> Result<Book, AllocError>
    ensures { IfOk result (λ book. book.entries ≡ []) }
{
    open_squares(rt, alloc, 1, steps)
}

/// A book without entries, of a cell of n rows of n squares.
pub(crate) fn open_squares<L: Ledger>(
    rt: &impl Abort,
    alloc: Global,
    n: u32,
    steps: &mut Steps<L>,
) -> Result<Book, AllocError>
    requires some { 1 ≤ n }
    requires few { n ≤ 100 }
    ensures { IfOk result (λ book. book.entries ≡ []) }
{
    match Book::make(alloc, make_cell(alloc, n)?, steps) {
        Ok(book) => Ok(book),
        Err(LoadRefusal::NoMemory) => Err(AllocError),
        Err(_) => panic!(rt; "the cell isn't loaded"),
    }
}

/// The deletions of nodes, prepared on a cell after so many accepted commits.
fn prepared_on<R: Threads + Abort + Sync>(
    rt: &R,
    alloc: Global,
    bench: &Bench,
    base: u32,
    nodes: &[u32],
) -> Result<Prepared, AllocError>
    ensures base { IfOk result (λ prepared. prepared.base ≡ base) }
    ensures level { IfOk result (λ prepared. prepared.edits.nall ≡ bench.now.head.nall) }
    ensures rows { IfOk result (λ prepared. RowsAreExact prepared.edits.edits bench.now prepared.rows) }
{
    let edits = deletions(alloc, nodes)?;
    let set = set_for(rt, alloc, bench, &edits);
    let prepared = prepare(rt, alloc, bench, base, set)?;
    Ok(prepared)
}

/// The deletions of nodes, prepared on the newest cell of a book.
pub(crate) fn prepared_late<R: Threads + Abort + Sync>(
    rt: &R,
    alloc: Global,
    book: &Book,
    nodes: &[u32],
) -> Result<Prepared, AllocError>
    ensures base { IfOk result (λ prepared. prepared.base ≡ length (history_of book.now).commits) }
    ensures level { IfOk result (λ prepared. prepared.edits.nall ≡ book.now.opening.head.nall) }
    ensures rows { IfOk result (AreRight book.now.opening book.now.entries) }
{
    book.known();
    let prepared = prepared_on(rt, alloc, book.bench(), book.commits(), nodes)?;
    Ok(prepared)
}

/// The deletions of nodes, prepared on the opening cell of a book.
pub(crate) fn prepared_early<R: Threads + Abort + Sync>(
    rt: &R,
    alloc: Global,
    book: &Book,
    opening: &Bench,
    nodes: &[u32],
) -> Result<Prepared, AllocError>
    requires { opening.now ≡ book.now.opening }
    ensures base { IfOk result (λ prepared. prepared.base ≡ 0) }
    ensures level { IfOk result (λ prepared. prepared.edits.nall ≡ book.now.opening.head.nall) }
    ensures rows { IfOk result (AreRight book.now.opening book.now.entries) }
{
    let _ = book;
    let prepared = prepared_on(rt, alloc, opening, 0, nodes)?;
    Ok(prepared)
}
