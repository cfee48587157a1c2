//! The areas of a file's cell round a point.

ghost use Rattle.std.specs.Prelude.{◌≡◌, ◌<◌, ◌≤◌, IfOk, map, string_bytes};
ghost use Rattle.call_files.specs.Inputs.{TellsReads};
ghost use Rattle.enc_top.specs.Outcome.{IsAskedBy, IsProbeIn};
ghost use Rattle.call_files.specs.Task.{task_of};
ghost use Rattle.enc_top.specs.Words.{probe_among, probe_form};

use crate::words::coordinate;
use call_files::{Work, read_bench};
use cell_bench::Bench;
use enc_outside::Shelf;
use look_counter::start_counter;
use report_text::Status;
use skin_probe::push_sheet;
use std::alloc::{AllocError, Global};
use std::marker::Brand;
use std::sync::ledger::{Blank, Ledger};
use std::thread::Threads;

/// The work that the words behind `probe` ask for.
pub(crate) fn probe<R: Threads + Sync, H: Shelf>(
    rt: &R,
    alloc: Global,
    others: &[String],
    shelf: &mut H,
) -> Result<Work, Status>
    ensures asked { IsAskedBy ⊥ (probe_among (map string_bytes others.now)) (H.files shelf.old) (H.read_faults shelf.old) (H.read_faults shelf.new) result }
    ensures files { H.files shelf.new ≡ H.files shelf.old }
    ensures read_faults { H.read_faults shelf.old ≤ H.read_faults shelf.new }
    ensures told_reads { TellsReads (H.read_faults shelf.old) (H.read_faults shelf.new) result }
    ensures write_faults { H.write_faults shelf.new ≡ H.write_faults shelf.old }
{
    let [cell, y, x] = others else {
        return Err(Status::Usage);
    };
    let Some(y) = coordinate(y.as_str()) else {
        return Err(Status::Usage);
    };
    let Some(x) = coordinate(x.as_str()) else {
        return Err(Status::Usage);
    };
    probe_at(rt, alloc, shelf, cell.as_str(), y, x)
}

/// What is told of the areas of a file's cell round the point at this latitude and longitude.
fn probe_at<R: Threads + Sync, H: Shelf>(
    rt: &R,
    alloc: Global,
    shelf: &mut H,
    cell: &str,
    y: i32,
    x: i32,
) -> Result<Work, Status>
    ensures asked { IsAskedBy ⊥ (probe_form cell.now (y, x)) (H.files shelf.old) (H.read_faults shelf.old) (H.read_faults shelf.new) result }
    ensures files { H.files shelf.new ≡ H.files shelf.old }
    ensures read_faults { H.read_faults shelf.old ≤ H.read_faults shelf.new }
    ensures told_reads { TellsReads (H.read_faults shelf.old) (H.read_faults shelf.new) result }
    ensures write_faults { H.write_faults shelf.new ≡ H.write_faults shelf.old }
{
    let bench = read_bench(rt, alloc, shelf, cell)?;
    Ok(probed_work::<Brand>(alloc, &bench, y, x, Blank::new(1))?)
}

/// The text of what is told of the areas round a point, with the look-ups counted.
fn probed_work<L: Ledger>(
    alloc: Global,
    bench: &Bench,
    y: i32,
    x: i32,
    blank: Blank,
) -> Result<Work, AllocError>
    requires name { blank.name ≡ L.name }
    requires parts { blank.parts ≡ L.parts }
    requires some_part { 0 < L.parts }
    ensures { IfOk result (λ work. IsProbeIn bench.now (y, x) (task_of work)) }
{
    let mut steps = start_counter::<L>(blank);
    let sheet = skin_probe::probe(alloc, bench, y, x, &mut steps)?;
    let mut text = Vec::new(alloc);
    push_sheet(alloc, (y, x), &sheet, &mut text)?;
    Ok(Work { text, export: None })
}
