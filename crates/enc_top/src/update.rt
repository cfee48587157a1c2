//! Applying an update file by one commit.

ghost use Rattle.std.specs.Prelude.{◌≡◌, ◌<◌, ◌≤◌, IfErr, IfOk, MatchResult, Ok, length, map, string_bytes};
ghost use Rattle.update_apply.specs.Gives.{IsUpdate, IsUpdateRefusal};
ghost use Rattle.update_spec.specs.UpdatedCell.{updated_cell};
ghost use Rattle.call_files.specs.Inputs.{IsJudged, TellsReads, cell_limit};
ghost use Rattle.enc_top.specs.Outcome.{IsAskedBy};
ghost use Rattle.enc_top.specs.Updates.{IsUpdateEnd, updated};
ghost use Rattle.enc_top.specs.Words.{apply_among, apply_form};

use crate::first::{commit, left_work};
use call_files::{Work, read_bench, read_update};
use cell_bench::Bench;
use edit_sets::EditSet;
use enc_outside::Shelf;
use look_counter::start_counter;
use report_text::Status;
use std::alloc::Global;
use std::marker::Brand;
use std::sync::ledger::{Blank, Ledger};
use std::thread::Threads;
use update_apply::{UpdateRefusal, update_edits};

/// The work that the words behind `apply` ask for.
pub(crate) fn apply<R: Threads + Sync, H: Shelf>(
    rt: &R,
    alloc: Global,
    others: &[String],
    shelf: &mut H,
) -> Result<Work, Status>
    ensures asked { IsAskedBy ⊥ (apply_among (map string_bytes others.now)) (H.files shelf.old) (H.read_faults shelf.old) (H.read_faults shelf.new) result }
    ensures files { H.files shelf.new ≡ H.files shelf.old }
    ensures read_faults { H.read_faults shelf.old ≤ H.read_faults shelf.new }
    ensures told_reads { TellsReads (H.read_faults shelf.old) (H.read_faults shelf.new) result }
    ensures write_faults { H.write_faults shelf.new ≡ H.write_faults shelf.old }
{
    let [cell, out, update] = others else {
        return Err(Status::Usage);
    };
    apply_file(
        rt,
        alloc,
        shelf,
        cell.as_str(),
        out.as_str(),
        update.as_str(),
    )
}

/// The text of the cell that an update file leaves of a file's cell, and its file.
fn apply_file<R: Threads + Sync, H: Shelf>(
    rt: &R,
    alloc: Global,
    shelf: &mut H,
    cell: &str,
    out: &str,
    update: &str,
) -> Result<Work, Status>
    ensures asked { IsAskedBy ⊥ (apply_form cell.now out.now update.now) (H.files shelf.old) (H.read_faults shelf.old) (H.read_faults shelf.new) result }
    ensures files { H.files shelf.new ≡ H.files shelf.old }
    ensures read_faults { H.read_faults shelf.old ≤ H.read_faults shelf.new }
    ensures told_reads { TellsReads (H.read_faults shelf.old) (H.read_faults shelf.new) result }
    ensures write_faults { H.write_faults shelf.new ≡ H.write_faults shelf.old }
{
    let bench = read_bench(rt, alloc, shelf, cell)?;
    let bytes = read_update(alloc, shelf, update)?;
    let left = leave::<R, Brand>(rt, alloc, bench, bytes, Blank::new(1))?;
    Ok(left_work(alloc, left, out)?)
}

/// The bench of the cell that an update file leaves. The file's bytes are given back before its edits are judged.
fn leave<R: Threads + Sync, L: Ledger>(
    rt: &R,
    alloc: Global,
    bench: Bench,
    bytes: Vec<u8>,
    blank: Blank,
) -> Result<Bench, Status>
    requires small { length bytes.items ≤ cell_limit }
    requires name { blank.name ≡ L.name }
    requires parts { blank.parts ≡ L.parts }
    requires some_part { 0 < L.parts }
    ensures judged { IsJudged (λ left. left) (updated bench bytes.items) result }
    ensures made { IfOk result (λ left. updated_cell bench bytes.items ≡ Ok left) }
    ensures ends { IfErr result IsUpdateEnd }
{
    let mut steps = start_counter::<L>(blank);
    match edits_of(alloc, &bench, bytes) {
        Ok(set) => commit(rt, alloc, bench, set, &mut steps),
        Err(UpdateRefusal::Fault(fault)) => Err(Status::BadUpdate(fault)),
        Err(UpdateRefusal::NoMemory) => Err(Status::NoMemory),
    }
}

/// The edits that an update file stands for on the cell of a bench.
fn edits_of(alloc: Global, bench: &Bench, bytes: Vec<u8>) -> Result<EditSet, UpdateRefusal>
    requires { length bytes.items ≤ cell_limit }
    ensures { MatchResult result (IsUpdate bench.now bytes.items) (IsUpdateRefusal bench.now bytes.items) }
{
    bench.known();
    let cell = bench.to_cell(alloc)?;
    update_edits(alloc, &cell, &bytes)
}
