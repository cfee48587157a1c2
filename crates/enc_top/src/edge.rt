//! Splitting an edge, and joining two, by one commit.

ghost use Rattle.std.specs.Prelude.{◌≡◌, ◌<◌, ◌≤◌, IfErr, IfOk, MatchResult, Option, map, string_bytes};
ghost use Rattle.topo_ops.specs.Refusals.{IsRefusal};
ghost use Rattle.topo_ops.specs.declared.refusal.OpRefusal.{OpRefusal as SpecRefusal};
ghost use Rattle.call_files.specs.Inputs.{IsJudged, TellsReads};
ghost use Rattle.enc_top.specs.Operations.{IsOperation, IsOperationEnd, IsOperationStatus, OperationKeeps, operated, operation_refusal};
ghost use Rattle.enc_top.specs.Outcome.{IsAskedBy};
ghost use Rattle.enc_top.specs.Words.{edge_among, edge_form, operation_in};

use crate::first::{commit, left_work};
use crate::operation::{Operation, OperationKind, operation_in_words};
use call_files::{Work, read_bench};
use cell_bench::Bench;
use chain_topo::Steps;
use edit_sets::EditSet;
use enc_outside::Shelf;
use look_counter::start_counter;
use report_text::Status;
use std::alloc::Global;
use std::marker::Brand;
use std::sync::ledger::{Blank, Ledger};
use std::thread::Threads;
use topo_ops::OpRefusal;

/// The work that the words behind `split` or `join` ask for.
pub(crate) fn edit_edges<R: Threads + Sync, H: Shelf>(
    rt: &R,
    alloc: Global,
    others: &[String],
    shelf: &mut H,
    kind: OperationKind,
) -> Result<Work, Status>
    ensures asked { IsAskedBy ⊥ (edge_among (operation_in kind) (map string_bytes others.now))
        (H.files shelf.old) (H.read_faults shelf.old) (H.read_faults shelf.new) result }
    ensures files { H.files shelf.new ≡ H.files shelf.old }
    ensures read_faults { H.read_faults shelf.old ≤ H.read_faults shelf.new }
    ensures told_reads { TellsReads (H.read_faults shelf.old) (H.read_faults shelf.new) result }
    ensures write_faults { H.write_faults shelf.new ≡ H.write_faults shelf.old }
{
    let [cell, out, numbers @ ..] = others else {
        return Err(Status::Usage);
    };
    let Some(operation) = operation_in_words(kind, numbers) else {
        return Err(Status::Usage);
    };
    edit(rt, alloc, shelf, cell.as_str(), out.as_str(), operation)
}

/// The text of the cell that an operation leaves of a file's cell, and its file.
fn edit<R: Threads + Sync, H: Shelf>(
    rt: &R,
    alloc: Global,
    shelf: &mut H,
    cell: &str,
    out: &str,
    operation: Operation,
) -> Result<Work, Status>
    ensures asked { IsAskedBy ⊥ (edge_form cell.now out.now operation) (H.files shelf.old) (H.read_faults shelf.old) (H.read_faults shelf.new) result }
    ensures files { H.files shelf.new ≡ H.files shelf.old }
    ensures read_faults { H.read_faults shelf.old ≤ H.read_faults shelf.new }
    ensures told_reads { TellsReads (H.read_faults shelf.old) (H.read_faults shelf.new) result }
    ensures write_faults { H.write_faults shelf.new ≡ H.write_faults shelf.old }
{
    let bench = read_bench(rt, alloc, shelf, cell)?;
    let left = operate::<R, Brand>(rt, alloc, bench, operation, Blank::new(1))?;
    Ok(left_work(alloc, left, out)?)
}

/// The bench of the cell that an operation leaves.
fn operate<R: Threads + Sync, L: Ledger>(
    rt: &R,
    alloc: Global,
    bench: Bench,
    operation: Operation,
    blank: Blank,
) -> Result<Bench, Status>
    requires name { blank.name ≡ L.name }
    requires parts { blank.parts ≡ L.parts }
    requires some_part { 0 < L.parts }
    ensures judged { IsJudged (λ left. left) (operated bench operation) result }
    ensures kept { IfOk result (λ left. OperationKeeps bench left operation) }
    ensures ends { IfErr result IsOperationEnd }
{
    let mut steps = start_counter::<L>(blank);
    match edits_of(alloc, &bench, operation, &mut steps) {
        Ok(set) => commit(rt, alloc, bench, set, &mut steps),
        Err(refusal) => Err(status_of(refusal)),
    }
}

/// The edits of an operation on the cell of a bench.
fn edits_of<L: Ledger>(
    alloc: Global,
    bench: &Bench,
    operation: Operation,
    steps: &mut Steps<L>,
) -> Result<EditSet, OpRefusal>
    ensures { MatchResult result (IsOperation bench.now operation) (IsRefusal (operation_refusal bench.now operation)) }
{
    let nall = bench.head().nall;
    let store = bench.store();
    match operation {
        Operation::Split {
            edge,
            at,
            node,
            fresh,
        } => topo_ops::split(alloc, store, edge, at, node, fresh, nall, steps),
        Operation::Join { edge, other } => topo_ops::join(alloc, store, edge, other, nall, steps),
    }
}

/// The status of a refused operation.
fn status_of(refusal: OpRefusal) -> Status
    ensures status { (rule : Option SpecRefusal) → IsRefusal rule refusal → IsOperationStatus rule result }
    ensures end { IsOperationEnd result }
{
    match refusal {
        OpRefusal::NoMemory => Status::NoMemory,
        cause => Status::OpRefused(cause.number()),
    }
}
