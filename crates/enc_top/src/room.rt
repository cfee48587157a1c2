//! Sessions in threads, as one call.

ghost use Rattle.std.specs.Prelude.{◌≡◌, ◌≤◌, true, All, IfErr, IfOk, length, map, string_bytes};
ghost use Rattle.enc_top.specs.{Inputs.{IsRunInRoom}, Words.{begins_with_room, form_of, room_form}, Outcome.{IsAskedBy}};
ghost use Rattle.call_files.specs.{Inputs.{IsCellOfFile, TellsReads}, Task.{task_of}};
ghost use Rattle.sessions.specs.Replays.{IsShortScript, session_limit};
ghost use Rattle.export_laws.specs.ExportedCells.{IsScriptOfText};
ghost use Rattle.room_run.specs.Rooms.{IsRunEnd};

use crate::work::work_of;
use call_files::{Work, read_bench, scripts_in_files};
use cell_bench::Bench;
use enc_outside::{Meet, Shelf};
use export_laws::exports_are_read_back;
use order_text::order_lines_are_read;
use report_text::Status;
use room_laws::entries_are_in_order;
use room_run::{RunEnd, run_sessions};
use run_laws::runs_take_their_course;
use script_text::Script;
use sessions::SESSION_LIMIT;
use std::alloc::Global;
use std::sync::Wait;
use std::thread::Threads;
use workroom::Workroom;

/// The work that the words behind `room` ask for: the report of running the scripts of input files on a cell, each in a thread of its own,
/// and the file of the cell that is left.
pub(crate) fn asked_room<R: Threads + Wait + Sync, H: Shelf, M: Meet + Sync>(
    rt: &R,
    alloc: Global,
    words: &[String],
    shelf: &mut H,
    meet: &M,
) -> Result<Work, Status>
    requires { begins_with_room (map string_bytes words.now) ≡ true }
    ensures files { H.files shelf.new ≡ H.files shelf.old }
    ensures read_faults { H.read_faults shelf.old ≤ H.read_faults shelf.new }
    ensures told_reads { TellsReads (H.read_faults shelf.old) (H.read_faults shelf.new) result }
    ensures write_faults { H.write_faults shelf.new ≡ H.write_faults shelf.old }
    ensures asked { IsAskedBy (M.sticks meet.now) (form_of (map string_bytes words.now))
        (H.files shelf.old) (H.read_faults shelf.old) (H.read_faults shelf.new) result }
{
    let [_, cell, out, names @ ..] = words else {
        return Err(Status::Usage);
    };
    if names.is_empty() || names.len() > SESSION_LIMIT {
        return Err(Status::Usage);
    }
    room_on(rt, alloc, shelf, cell.as_str(), out.as_str(), names, meet)
}

/// The same of the names of the cell's file, of the file to be made and of the scripts.
fn room_on<R: Threads + Wait + Sync, H: Shelf, M: Meet + Sync>(
    rt: &R,
    alloc: Global,
    shelf: &mut H,
    cell: &str,
    out: &str,
    names: &[String],
    meet: &M,
) -> Result<Work, Status>
    requires some { 1 ≤ length names.now }
    requires few { length names.now ≤ session_limit }
    ensures files { H.files shelf.new ≡ H.files shelf.old }
    ensures read_faults { H.read_faults shelf.old ≤ H.read_faults shelf.new }
    ensures told_reads { TellsReads (H.read_faults shelf.old) (H.read_faults shelf.new) result }
    ensures write_faults { H.write_faults shelf.new ≡ H.write_faults shelf.old }
    ensures asked { IsAskedBy (M.sticks meet.now) (room_form cell.now out.now (map string_bytes names.now))
        (H.files shelf.old) (H.read_faults shelf.old) (H.read_faults shelf.new) result }
{
    let bench = read_bench(rt, alloc, shelf, cell)?;
    let scripts = scripts_in_files(alloc, shelf, names)?;
    match room_work(rt, alloc, bench, out, scripts, meet) {
        Ok(work) => Ok(work),
        Err(RunEnd::Stuck(stuck)) => Err(Status::Stuck(stuck.desk, stuck.serial)),
        Err(RunEnd::NoMemory) => Err(Status::NoMemory),
    }
}

/// The report of running scripts on the cell of a bench, each in a thread of its own at a desk of its own, and the file of the cell that is
/// left: those of one thread in the order that the report tells.
fn room_work<R: Threads + Wait + Sync, M: Meet + Sync>(
    rt: &R,
    alloc: Global,
    bench: Bench,
    out: &str,
    scripts: Vec<Script>,
    meet: &M,
) -> Result<Work, RunEnd>
    requires of_file { IsCellOfFile bench }
    requires some { 1 ≤ length scripts.items }
    requires few { length scripts.items ≤ session_limit }
    requires short { All IsShortScript scripts.items }
    requires of_texts { All IsScriptOfText scripts.items }
    ensures run { IfOk result (λ work. IsRunInRoom bench out.now scripts.items (task_of work)) }
    ensures end { IfErr result (IsRunEnd (M.sticks meet.now) scripts.items) }
{
    exports_are_read_back();
    order_lines_are_read();
    entries_are_in_order();
    runs_take_their_course();
    let room = Workroom::of_bench(alloc, bench)?;
    let held = run_sessions(rt, alloc, room, scripts, meet)?;
    let (book, transcripts) = held.into_parts();
    Ok(work_of(alloc, out, book, transcripts)?)
}
