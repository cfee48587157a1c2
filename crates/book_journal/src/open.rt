//! Opening a journal.

ghost use Rattle.std.specs.Prelude.{◌≡◌, ◌≤◌, ◌↔◌, IfErr, IfOk, IfSome, IsSome, MatchResult};
ghost use Rattle.cell_spec.specs.Writable.{IsWritable};
ghost use Rattle.crash_disk.specs.Disk.{LeavesOnly};
ghost use Rattle.book_journal.specs.Keeping.{IsAsBefore};
ghost use Rattle.book_journal.specs.Opening.{CountsFaults, IsBookOfJournal, IsOpenRefusal, IsOpenedAt, LeavesBytes};

use crate::reading::{begin_list, read_disk};
use crate::refusal::OpenRefusal;
use crate::replay::replay;
use chain_topo::Steps;
use commit_book::Book;
use crash_disk::Disk;
use s57_types::Cell;
use std::alloc::Global;
use std::sync::ledger::Ledger;
use std::thread::Threads;

/// The book of the commits of a disk's journal, and the place where their list ends. Nothing is repaired and nothing is cut: a file of at most one
/// byte becomes an empty list, and no other file is written to. The look-ups of its commits are counted, those of the load aren't.
///
/// An `Err` says that a call of the disk failed, that the cell has more findings than the limit, at which place of the file, from 0, an entry is damaged,
/// or how many commits there are, where these are over the limit, or means out of memory. Only after the first the disk's bytes may be others.
pub fn open_book<R: Threads + Sync, L: Ledger, D: Disk>(
    rt: &R,
    alloc: Global,
    cell: Cell,
    disk: &mut D,
    steps: &mut Steps<L>,
) -> Result<(Book, u64), OpenRefusal>
    requires { IsWritable cell }
    ensures book { IfOk result (λ opened. IsBookOfJournal cell opened.0) }
    ensures opened { IfOk result (λ opened. IsOpenedAt cell opened.0 opened.1 (D.content disk.old) (D.content disk.new) (D.images disk.new)) }
    ensures err { IfErr result (IsOpenRefusal cell (D.content disk.old) (D.faults disk.old) (D.faults disk.new)) }
    ensures left { IfErr result (LeavesBytes (D.content disk.old) (D.content disk.new)) }
    ensures stays_told { IsSome (D.content disk.new) ↔ IsSome (D.content disk.old) }
    ensures moments { IfSome (D.content disk.old) (λ _. LeavesOnly D.moment D.left_since disk.old disk.new (IsAsBefore cell (D.images disk.old))) }
    ensures counted { MatchResult result (λ _. D.faults disk.new ≡ D.faults disk.old) (CountsFaults (D.faults disk.old) (D.faults disk.new)) }
    ensures no_fall { D.faults disk.old ≤ D.faults disk.new }
{
    let bytes = read_disk(alloc, disk)?;
    let opened = replay(rt, alloc, cell, &bytes, steps)?;
    if bytes.len() > 1 {
        return Ok(opened);
    }
    begin_list(disk)?;
    Ok(opened)
}
