//! A session over a journal, as one call of the program.

ghost use Rattle.std.specs.Prelude.{◌≡◌, ◌≤◌, ◌↔◌, IfErr, IfSome, IsSome, Some, map, string_bytes};
ghost use Rattle.crash_disk.specs.Disk.{LeavesOnly};
ghost use Rattle.enc_outside.specs.Files.{StaysUntold};
ghost use Rattle.call_files.specs.Inputs.{TellsReads};
ghost use Rattle.call_files.specs.Outside.{outside};
ghost use Rattle.keep_run.specs.Causes.{IsAskedIn, IsAskedOf, IsImageIn, IsImageOf, IsUntouched, IsWorkOf, OnlyReads, TellsDisk};
ghost use Rattle.keep_run.specs.Ends.{IsEnd};
ghost use Rattle.keep_run.specs.Words.{form_of, keep_form};

use crate::ask::DESK;
use crate::keep::keep;
use crate::report::Kept;
use book_journal::a_journal_has_one_reading;
use call_files::{Export, Work, finish, read_cell, script_in_file};
use crash_disk::Disk;
use decode_laws::decoded_cell_is_writable;
use enc_outside::{Shelf, Sink};
use report_text::Status;
use std::alloc::Global;
use std::marker::Brand;
use std::sync::ledger::Blank;
use std::thread::Threads;

/// Runs the command line `keep CELL OUT JOURNAL S`: the script S is run as one session, of desk 1, over the commits that the journal on the disk
/// has, and each commit that is accepted is on the disk before the session goes on. The text that is put tells how many commits the journal had, the session's
/// lines, and the cell that is left, which is then written as the file OUT. The words are those after the program's name.
///
/// What a crash leaves of the disk at any moment has the commits that the journal had and the first of those that the script has accepted, with all
/// whose lines were put.
pub fn run_keep<R: Threads + Sync, H: Shelf, O: Sink, D: Disk>(
    rt: &R,
    alloc: Global,
    words: &[String],
    shelf: &mut H,
    out: &mut O,
    disk: &mut D,
) -> Status
    ensures end { IsEnd (map string_bytes words.now)
        (outside (H.files shelf.old) (H.read_faults shelf.old) (H.write_faults shelf.old) (O.written out.old) (O.faults out.old))
        (outside (H.files shelf.new) (H.read_faults shelf.new) (H.write_faults shelf.new) (O.written out.new) (O.faults out.new))
        (D.content disk.old) (D.content disk.new) (D.faults disk.old) (D.faults disk.new) (D.images disk.new) result }
    // What a crash leaves at any moment of the call.
    ensures moments { IfSome (D.content disk.old) (λ file. LeavesOnly D.moment D.left_since disk.old disk.new
        (IsImageOf (map string_bytes words.now) (H.files shelf.old) file (D.images disk.old))) }
    ensures untouched { IsUntouched result → disk.new ≡ disk.old }
    ensures stays_told { IsSome (D.content disk.new) ↔ IsSome (D.content disk.old) }
    ensures untold { StaysUntold (H.files shelf.old) (H.files shelf.new) }
    ensures untold_put { StaysUntold (O.written out.old) (O.written out.new) }
    ensures read_faults { H.read_faults shelf.old ≤ H.read_faults shelf.new }
    ensures write_faults { H.write_faults shelf.old ≤ H.write_faults shelf.new }
    ensures put_faults { O.faults out.old ≤ O.faults out.new }
    ensures disk_faults { D.faults disk.old ≤ D.faults disk.new }
{
    a_journal_has_one_reading();
    match asked_keep(rt, alloc, words, shelf, disk) {
        Ok(work) => finish(shelf, out, &work),
        Err(status) => status,
    }
}

/// The work that words ask for.
fn asked_keep<R: Threads + Sync, H: Shelf, D: Disk>(
    rt: &R,
    alloc: Global,
    words: &[String],
    shelf: &mut H,
    disk: &mut D,
) -> Result<Work, Status>
    ensures asked { IsAskedIn (form_of (map string_bytes words.now)) (H.files shelf.old) (H.read_faults shelf.old) (H.read_faults shelf.new)
        (D.content disk.old) (D.content disk.new) (D.faults disk.old) (D.faults disk.new) (D.images disk.new) result }
    ensures moments { IfSome (D.content disk.old) (λ file. LeavesOnly D.moment D.left_since disk.old disk.new
        (IsImageOf (map string_bytes words.now) (H.files shelf.old) file (D.images disk.old))) }
    ensures untouched { IfErr result (λ status. IsUntouched status → disk.new ≡ disk.old) }
    ensures stays_told { IsSome (D.content disk.new) ↔ IsSome (D.content disk.old) }
    ensures disk_faults { D.faults disk.old ≤ D.faults disk.new }
    ensures reads { OnlyReads (H.files shelf.old) (H.files shelf.new)
        (H.read_faults shelf.old) (H.read_faults shelf.new) (H.write_faults shelf.old) (H.write_faults shelf.new) }
    ensures told_reads { TellsReads (H.read_faults shelf.old) (H.read_faults shelf.new) result }
    ensures told_disk { TellsDisk (D.faults disk.old) (D.faults disk.new) result }
{
    let [first, cell, out, _, script] = words else {
        return Err(Status::Usage);
    };
    if first.as_str() == "keep" {
        return kept_work(
            rt,
            alloc,
            shelf,
            disk,
            cell.as_str(),
            out.as_str(),
            script.as_str(),
        );
    }
    Err(Status::Usage)
}

/// The text of a session over a journal, and the file of the cell that it leaves.
fn kept_work<R: Threads + Sync, H: Shelf, D: Disk>(
    rt: &R,
    alloc: Global,
    shelf: &mut H,
    disk: &mut D,
    cell: &str,
    out: &str,
    script: &str,
) -> Result<Work, Status>
    ensures asked { IsAskedOf (keep_form cell.now out.now script.now) (H.files shelf.old) (H.read_faults shelf.old) (H.read_faults shelf.new)
        (D.content disk.old) (D.content disk.new) (D.faults disk.old) (D.faults disk.new) (D.images disk.new) result }
    ensures moments { IfSome (D.content disk.old) (λ file. LeavesOnly D.moment D.left_since disk.old disk.new
        (IsImageIn (Some (keep_form cell.now out.now script.now)) (H.files shelf.old) file (D.images disk.old))) }
    ensures untouched { IfErr result (λ status. IsUntouched status → disk.new ≡ disk.old) }
    ensures stays_told { IsSome (D.content disk.new) ↔ IsSome (D.content disk.old) }
    ensures disk_faults { D.faults disk.old ≤ D.faults disk.new }
    ensures reads { OnlyReads (H.files shelf.old) (H.files shelf.new)
        (H.read_faults shelf.old) (H.read_faults shelf.new) (H.write_faults shelf.old) (H.write_faults shelf.new) }
    ensures told_reads { TellsReads (H.read_faults shelf.old) (H.read_faults shelf.new) result }
    ensures told_disk { TellsDisk (D.faults disk.old) (D.faults disk.new) result }
{
    let checked = read_cell(rt, alloc, shelf, cell)?;
    let script = script_in_file(alloc, shelf, script, DESK)?;
    decoded_cell_is_writable();
    work_of(
        alloc,
        keep::<R, Brand, D>(rt, alloc, checked.into_cell(), &script, disk, Blank::new(1)),
        out,
    )
}

/// What is left of a session to put and to write under a name. The journal and its log are given back by now.
fn work_of(alloc: Global, kept: Result<Kept, Status>, out: &str) -> Result<Work, Status>
    ensures { IsWorkOf out.now kept result }
{
    let (text, bench) = kept?.into_parts();
    let export = Export::of_bench(alloc, bench, out)?;
    Ok(Work {
        text,
        export: Some(export),
    })
}
