//! A drill.

ghost use Rattle.std.specs.Prelude.{◌≡◌, ◌≤◌, [], IfErr, IfOk};
ghost use Rattle.cell_bench.specs.Benches.{IsLoadRefusal};
ghost use Rattle.cell_make.specs.GeneratedCell.{generated_cell};
ghost use Rattle.cell_make.specs.GeneratedScripts.{generated_scripts};
ghost use Rattle.drill_run.specs.Drills.{IsDrilled, counts_of_run};
ghost use Rattle.drill_run.specs.RoundRobin.{round_robin as round_robin_of};
ghost use Rattle.room_laws.specs.Orders.{quotas_of};
ghost use Rattle.text_spec.specs.OrderLine.{IsOrder};

use crate::counts::{Drilled, counts_of};
use crate::turns::round_robin;
use cell_bench::LoadRefusal;
use cell_make::{make_cell, make_scripts};
use commit_book::Book;
use recheck::load;
use sessions::replay;
use std::alloc::{AllocError, Global};
use std::thread::Threads;

/// The counts of running the generated scripts on the cell of an opened log, the sessions in turn.
fn run_in_turns<R: Threads + Sync>(
    rt: &R,
    alloc: Global,
    book: Book,
    size: u32,
    sessions: u32,
) -> Result<Drilled, AllocError>
    requires opened { book.entries ≡ [] }
    requires some { 1 ≤ size }
    requires few { size ≤ 100 }
    requires one_session { 1 ≤ sessions }
    requires sessions { sessions ≤ 16 }
    ensures counts { IfOk result (λ drilled. drilled ≡ counts_of_run book.opening (generated_scripts size sessions) (round_robin_of sessions)) }
    ensures whole { IfOk result (λ _. IsOrder (quotas_of (generated_scripts size sessions)) (round_robin_of sessions)) }
{
    let scripts = make_scripts(alloc, size, sessions)?;
    let order = round_robin(alloc, sessions)?;
    let replayed = replay(rt, alloc, book, scripts, &order)?;
    Ok(counts_of(&replayed.book))
}

/// Runs the generated scripts of so many sessions, from 1 to 16, on the generated cell of so many rows of squares, from 1 to 100: the sessions
/// in turn, one view or commit each, until all scripts are done.
///
/// An `Err` says that the generated cell has more findings than the limit, or means out of memory.
pub fn drill<R: Threads + Sync>(
    rt: &R,
    alloc: Global,
    size: u32,
    sessions: u32,
) -> Result<Drilled, LoadRefusal>
    requires some { 1 ≤ size }
    requires few { size ≤ 100 }
    requires one_session { 1 ≤ sessions }
    requires sessions { sessions ≤ 16 }
    ensures ok { IfOk result (IsDrilled size sessions) }
    ensures err { IfErr result (IsLoadRefusal (generated_cell size)) }
{
    let cell = make_cell(alloc, size)?;
    let bench = load(rt, alloc, cell)?;
    let book = Book::of_bench(alloc, bench);
    Ok(run_in_turns(rt, alloc, book, size, sessions)?)
}
