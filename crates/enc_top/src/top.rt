//! The program as one call.

ghost use Rattle.std.specs.Prelude.{◌≡◌, ◌⊎◌, ◌↔◌, ◌≤◌, true, false, All, IfErr, IfOk, length, map, string_bytes};
ghost use Rattle.enc_outside.specs.Files.{StaysUntold};
ghost use Rattle.export_laws.specs.ExportedCells.{IsScriptOfText};
ghost use Rattle.room_laws.specs.Orders.{quotas_of as quotas_of_scripts};
ghost use Rattle.sessions.specs.Replays.{IsShortScript, session_limit};
ghost use Rattle.text_spec.specs.OrderLine.{IsOrder};
ghost use Rattle.enc_top.specs.Complete.{IsComplete};
ghost use Rattle.call_files.specs.Inputs.{IsAmong, IsCellOfFile, IsFile, IsInputStatus};
ghost use Rattle.enc_top.specs.Inputs.{IsOrderedRun, IsReachedInRun, IsRunOf};
ghost use Rattle.enc_top.specs.Inputs.{OrderedRunIs, RunIs};
ghost use Rattle.call_files.specs.Inputs.{EndTellsReads, Tells, TellsReads};
ghost use Rattle.enc_top.specs.Outcome.{IsAskedBy, IsCause, IsExact, IsReadBackFrom};
ghost use Rattle.call_files.specs.Outside.{outside};
ghost use Rattle.enc_top.specs.Task.{run_task};
ghost use Rattle.call_files.specs.Task.{task_of};
ghost use Rattle.enc_top.specs.Words.{begins_with_room as spec_begins_with_room, check_among, form_of, no_form, replay_among};

use crate::edge::edit_edges;
use crate::made::{drill, make};
use crate::operation::OperationKind;
use crate::probed::probe;
use crate::room::asked_room;
use crate::update::apply;
use crate::words::begins_with_room;
use crate::work::work_of;
use call_files::{Work, finish, order_in_file, quotas_of, read_bench, read_cell, scripts_in_files};
use cell_bench::Bench;
use cell_findings::push_cell;
use commit_book::Book;
use enc_outside::{Meet, Shelf, Sink};
use export_laws::exports_are_read_back;
use order_text::Order;
use report_text::Status;
use run_laws::runs_take_their_course;
use script_text::Script;
use sessions::{SESSION_LIMIT, replay};
use std::alloc::Global;
use std::mem::forget;
use std::sync::Wait;
use std::thread::Threads;

/// Runs the command line: `check CELL` puts the numbers of records and all findings of the cell; `replay CELL OUT ORDER S1 .. Sk` puts the
/// report of running k scripts on it in the order of the order file, and then writes the cell that is left as the file OUT;
/// `room CELL OUT S1 .. Sk` does the same with each script in a thread of its own, in the order that comes about; `make N OUT` puts the line
/// of the generated cell of N rows of N squares, and then writes the cell as the file OUT; `drill N K` puts the line of the run of K generated
/// scripts on that cell, the sessions in turn. `split CELL OUT E K V F` splits edge E at its K-th point by the new node V and the new edge F, and
/// `join CELL OUT E F` joins edge E with edge F behind it: each puts the numbers of records and all findings of the cell that this leaves, in
/// which every feature runs where it ran, and then writes it as the file OUT. `probe CELL Y X` puts which areas of the cell go round the point at
/// that latitude and longitude. `apply CELL OUT UPDATE` applies an update file to the cell by one commit, puts the numbers of records and all
/// findings of the cell that this leaves, and then writes it as the file OUT. The words are those after the program's name. `meet` is called
/// before each view and commit of a session in a thread.
///
/// Whatever order the threads take: of `room` the report that is put is that of one thread that does each session's commands, once and in
/// order, in the order that the report's first line tells, and OUT is the file of the cell that this leaves.
pub fn run<R: Threads + Wait + Sync, H: Shelf, O: Sink, M: Meet + Sync>(
    rt: &R,
    alloc: Global,
    words: &[String],
    shelf: &mut H,
    out: &mut O,
    meet: &M,
) -> Status
    ensures cause { IsCause (M.sticks meet.now) (map string_bytes words.now)
        (outside (H.files shelf.old) (H.read_faults shelf.old) (H.write_faults shelf.old) (O.written out.old) (O.faults out.old))
        (outside (H.files shelf.new) (H.read_faults shelf.new) (H.write_faults shelf.new) (O.written out.new) (O.faults out.new)) result }
    ensures exact { IsExact (M.sticks meet.now) (map string_bytes words.now)
        (outside (H.files shelf.old) (H.read_faults shelf.old) (H.write_faults shelf.old) (O.written out.old) (O.faults out.old))
        (outside (H.files shelf.new) (H.read_faults shelf.new) (H.write_faults shelf.new) (O.written out.new) (O.faults out.new)) result }
    ensures complete { IsComplete (M.sticks meet.now) (map string_bytes words.now)
        (outside (H.files shelf.old) (H.read_faults shelf.old) (H.write_faults shelf.old) (O.written out.old) (O.faults out.old))
        (outside (H.files shelf.new) (H.read_faults shelf.new) (H.write_faults shelf.new) (O.written out.new) (O.faults out.new)) result }
    ensures read_back { IsReadBackFrom (map string_bytes words.now)
        (outside (H.files shelf.old) (H.read_faults shelf.old) (H.write_faults shelf.old) (O.written out.old) (O.faults out.old))
        (outside (H.files shelf.new) (H.read_faults shelf.new) (H.write_faults shelf.new) (O.written out.new) (O.faults out.new)) result }
    ensures usage { (result ≡ Status.Usage) ↔ (form_of (map string_bytes words.now) ≡ no_form) }
    ensures untold { StaysUntold (H.files shelf.old) (H.files shelf.new) }
    ensures untold_put { StaysUntold (O.written out.old) (O.written out.new) }
    ensures read_faults { H.read_faults shelf.old ≤ H.read_faults shelf.new }
    ensures told_reads { EndTellsReads (H.read_faults shelf.old) (H.read_faults shelf.new) result }
    ensures write_faults { H.write_faults shelf.old ≤ H.write_faults shelf.new }
    ensures put_faults { O.faults out.old ≤ O.faults out.new }
{
    if begins_with_room(words) {
        return run_room(rt, alloc, words, shelf, out, meet);
    }
    run_plain(rt, alloc, words, shelf, out)
}

/// The same of words that begin with `room`.
pub fn run_room<R: Threads + Wait + Sync, H: Shelf, O: Sink, M: Meet + Sync>(
    rt: &R,
    alloc: Global,
    words: &[String],
    shelf: &mut H,
    out: &mut O,
    meet: &M,
) -> Status
    requires { spec_begins_with_room (map string_bytes words.now) ≡ true }
    ensures cause { IsCause (M.sticks meet.now) (map string_bytes words.now)
        (outside (H.files shelf.old) (H.read_faults shelf.old) (H.write_faults shelf.old) (O.written out.old) (O.faults out.old))
        (outside (H.files shelf.new) (H.read_faults shelf.new) (H.write_faults shelf.new) (O.written out.new) (O.faults out.new)) result }
    ensures exact { IsExact (M.sticks meet.now) (map string_bytes words.now)
        (outside (H.files shelf.old) (H.read_faults shelf.old) (H.write_faults shelf.old) (O.written out.old) (O.faults out.old))
        (outside (H.files shelf.new) (H.read_faults shelf.new) (H.write_faults shelf.new) (O.written out.new) (O.faults out.new)) result }
    ensures complete { IsComplete (M.sticks meet.now) (map string_bytes words.now)
        (outside (H.files shelf.old) (H.read_faults shelf.old) (H.write_faults shelf.old) (O.written out.old) (O.faults out.old))
        (outside (H.files shelf.new) (H.read_faults shelf.new) (H.write_faults shelf.new) (O.written out.new) (O.faults out.new)) result }
    ensures read_back { IsReadBackFrom (map string_bytes words.now)
        (outside (H.files shelf.old) (H.read_faults shelf.old) (H.write_faults shelf.old) (O.written out.old) (O.faults out.old))
        (outside (H.files shelf.new) (H.read_faults shelf.new) (H.write_faults shelf.new) (O.written out.new) (O.faults out.new)) result }
    ensures usage { (result ≡ Status.Usage) ↔ (form_of (map string_bytes words.now) ≡ no_form) }
    ensures untold { StaysUntold (H.files shelf.old) (H.files shelf.new) }
    ensures untold_put { StaysUntold (O.written out.old) (O.written out.new) }
    ensures read_faults { H.read_faults shelf.old ≤ H.read_faults shelf.new }
    ensures told_reads { EndTellsReads (H.read_faults shelf.old) (H.read_faults shelf.new) result }
    ensures write_faults { H.write_faults shelf.old ≤ H.write_faults shelf.new }
    ensures put_faults { O.faults out.old ≤ O.faults out.new }
{
    match asked_room(rt, alloc, words, shelf, meet) {
        Ok(work) => finish(shelf, out, &work),
        Err(status) => status,
    }
}

/// The same of other words, on one thread of control, which always returns.
pub fn run_plain<R: Threads + Sync, H: Shelf, O: Sink>(
    rt: &R,
    alloc: Global,
    words: &[String],
    shelf: &mut H,
    out: &mut O,
) -> Status
    requires { spec_begins_with_room (map string_bytes words.now) ≡ false }
    ensures cause { IsCause ⊥ (map string_bytes words.now)
        (outside (H.files shelf.old) (H.read_faults shelf.old) (H.write_faults shelf.old) (O.written out.old) (O.faults out.old))
        (outside (H.files shelf.new) (H.read_faults shelf.new) (H.write_faults shelf.new) (O.written out.new) (O.faults out.new)) result }
    ensures exact { IsExact ⊥ (map string_bytes words.now)
        (outside (H.files shelf.old) (H.read_faults shelf.old) (H.write_faults shelf.old) (O.written out.old) (O.faults out.old))
        (outside (H.files shelf.new) (H.read_faults shelf.new) (H.write_faults shelf.new) (O.written out.new) (O.faults out.new)) result }
    ensures complete { IsComplete ⊥ (map string_bytes words.now)
        (outside (H.files shelf.old) (H.read_faults shelf.old) (H.write_faults shelf.old) (O.written out.old) (O.faults out.old))
        (outside (H.files shelf.new) (H.read_faults shelf.new) (H.write_faults shelf.new) (O.written out.new) (O.faults out.new)) result }
    ensures read_back { IsReadBackFrom (map string_bytes words.now)
        (outside (H.files shelf.old) (H.read_faults shelf.old) (H.write_faults shelf.old) (O.written out.old) (O.faults out.old))
        (outside (H.files shelf.new) (H.read_faults shelf.new) (H.write_faults shelf.new) (O.written out.new) (O.faults out.new)) result }
    ensures usage { (result ≡ Status.Usage) ↔ (form_of (map string_bytes words.now) ≡ no_form) }
    ensures untold { StaysUntold (H.files shelf.old) (H.files shelf.new) }
    ensures untold_put { StaysUntold (O.written out.old) (O.written out.new) }
    ensures read_faults { H.read_faults shelf.old ≤ H.read_faults shelf.new }
    ensures told_reads { EndTellsReads (H.read_faults shelf.old) (H.read_faults shelf.new) result }
    ensures write_faults { H.write_faults shelf.old ≤ H.write_faults shelf.new }
    ensures put_faults { O.faults out.old ≤ O.faults out.new }
{
    match asked_work(rt, alloc, words, shelf) {
        Ok(work) => finish(shelf, out, &work),
        Err(status) => status,
    }
}

/// The work that words ask for.
fn asked_work<R: Threads + Sync, H: Shelf>(
    rt: &R,
    alloc: Global,
    words: &[String],
    shelf: &mut H,
) -> Result<Work, Status>
    requires { spec_begins_with_room (map string_bytes words.now) ≡ false }
    ensures asked { IsAskedBy ⊥ (form_of (map string_bytes words.now)) (H.files shelf.old) (H.read_faults shelf.old) (H.read_faults shelf.new) result }
    ensures files { H.files shelf.new ≡ H.files shelf.old }
    ensures read_faults { H.read_faults shelf.old ≤ H.read_faults shelf.new }
    ensures told_reads { TellsReads (H.read_faults shelf.old) (H.read_faults shelf.new) result }
    ensures write_faults { H.write_faults shelf.new ≡ H.write_faults shelf.old }
{
    let [first, others @ ..] = words else {
        return Err(Status::Usage);
    };
    let first = first.as_str();
    if first == "check" {
        return check(rt, alloc, others, shelf);
    }
    if first == "replay" {
        return replay_work(rt, alloc, others, shelf);
    }
    if first == "make" {
        return make(alloc, others);
    }
    if first == "drill" {
        return drill(rt, alloc, others);
    }
    if first == "split" {
        return edit_edges(rt, alloc, others, shelf, OperationKind::Split);
    }
    if first == "join" {
        return edit_edges(rt, alloc, others, shelf, OperationKind::Join);
    }
    if first == "probe" {
        return probe(rt, alloc, others, shelf);
    }
    if first == "apply" {
        return apply(rt, alloc, others, shelf);
    }
    Err(Status::Usage)
}

/// The text of the cell that the words behind `check` name.
fn check<R: Threads + Sync, H: Shelf>(
    rt: &R,
    alloc: Global,
    others: &[String],
    shelf: &mut H,
) -> Result<Work, Status>
    ensures asked { IsAskedBy ⊥ (check_among (map string_bytes others.now)) (H.files shelf.old) (H.read_faults shelf.old) (H.read_faults shelf.new) result }
    ensures files { H.files shelf.new ≡ H.files shelf.old }
    ensures read_faults { H.read_faults shelf.old ≤ H.read_faults shelf.new }
    ensures told_reads { TellsReads (H.read_faults shelf.old) (H.read_faults shelf.new) result }
    ensures write_faults { H.write_faults shelf.new ≡ H.write_faults shelf.old }
{
    let [name] = others else {
        return Err(Status::Usage);
    };
    let checked = read_cell(rt, alloc, shelf, name.as_str())?;
    let mut text = Vec::new(alloc);
    push_cell(&mut text, &checked.cell, &checked.findings)?;
    // The program ends next, and the system takes all memory back at once: to give each record back would take a tenth of the first thread's time.
    forget(checked);
    Ok(Work { text, export: None })
}

/// The report of the run that the words behind `replay` name, and the file of the cell that is left.
fn replay_work<R: Threads + Sync, H: Shelf>(
    rt: &R,
    alloc: Global,
    others: &[String],
    shelf: &mut H,
) -> Result<Work, Status>
    ensures asked { IsAskedBy ⊥ (replay_among (map string_bytes others.now)) (H.files shelf.old) (H.read_faults shelf.old) (H.read_faults shelf.new) result }
    ensures files { H.files shelf.new ≡ H.files shelf.old }
    ensures read_faults { H.read_faults shelf.old ≤ H.read_faults shelf.new }
    ensures told_reads { TellsReads (H.read_faults shelf.old) (H.read_faults shelf.new) result }
    ensures write_faults { H.write_faults shelf.new ≡ H.write_faults shelf.old }
{
    let [cell, out, order, names @ ..] = others else {
        return Err(Status::Usage);
    };
    if names.is_empty() || names.len() > SESSION_LIMIT {
        return Err(Status::Usage);
    }
    let bench = read_bench(rt, alloc, shelf, cell.as_str())?;
    replay_scripts(rt, alloc, shelf, bench, out.as_str(), order.as_str(), names)
}

/// The report of running the scripts of input files on the cell of a bench in the order of another, and the file of the cell that is left.
fn replay_scripts<R: Threads + Sync, H: Shelf>(
    rt: &R,
    alloc: Global,
    shelf: &mut H,
    bench: Bench,
    out: &str,
    order: &str,
    names: &[String],
) -> Result<Work, Status>
    requires of_file { IsCellOfFile bench }
    requires few { length names.now ≤ session_limit }
    ensures tells { Tells task_of (RunIs bench out.now order.now (map string_bytes names.now))
        (λ fs n. IsReachedInRun order.now (map string_bytes names.now) fs n)
        (H.files shelf.old) (H.read_faults shelf.old) (H.read_faults shelf.new) result }
    ensures run { IfOk result (λ work. IsRunOf bench out.now order.now (map string_bytes names.now) (H.files shelf.old) (task_of work)) }
    ensures status { IfErr result (IsInputStatus (λ n. (n ≡ order.now) ⊎ IsAmong (map string_bytes names.now) n)) }
    ensures files { H.files shelf.new ≡ H.files shelf.old }
    ensures read_faults { H.read_faults shelf.old ≤ H.read_faults shelf.new }
    ensures told_reads { TellsReads (H.read_faults shelf.old) (H.read_faults shelf.new) result }
    ensures write_faults { H.write_faults shelf.new ≡ H.write_faults shelf.old }
{
    let scripts = scripts_in_files(alloc, shelf, names)?;
    replay_in_file_order(rt, alloc, shelf, bench, out, order, scripts)
}

/// The report of running scripts on the cell of a bench in the order of an input file, and the file of the cell that is left.
fn replay_in_file_order<R: Threads + Sync, H: Shelf>(
    rt: &R,
    alloc: Global,
    shelf: &mut H,
    bench: Bench,
    out: &str,
    order: &str,
    scripts: Vec<Script>,
) -> Result<Work, Status>
    requires of_file { IsCellOfFile bench }
    requires few { length scripts.items ≤ session_limit }
    requires short { All IsShortScript scripts.items }
    requires of_texts { All IsScriptOfText scripts.items }
    ensures tells { Tells task_of (OrderedRunIs bench out.now order.now scripts.items) (IsFile order.now)
        (H.files shelf.old) (H.read_faults shelf.old) (H.read_faults shelf.new) result }
    ensures run { IfOk result (λ work. IsOrderedRun bench out.now order.now scripts.items (H.files shelf.old) (task_of work)) }
    ensures status { IfErr result (IsInputStatus (λ n. n ≡ order.now)) }
    ensures files { H.files shelf.new ≡ H.files shelf.old }
    ensures read_faults { H.read_faults shelf.old ≤ H.read_faults shelf.new }
    ensures told_reads { TellsReads (H.read_faults shelf.old) (H.read_faults shelf.new) result }
    ensures write_faults { H.write_faults shelf.new ≡ H.write_faults shelf.old }
{
    exports_are_read_back();
    runs_take_their_course();
    let quotas = quotas_of(alloc, &scripts)?;
    let sessions = order_in_file(alloc, shelf, order, &quotas)?;
    replay_and_export(rt, alloc, bench, out, scripts, sessions)
}

/// The report of running scripts on the cell of a bench in an order, and the file of the cell that is left.
fn replay_and_export<R: Threads + Sync>(
    rt: &R,
    alloc: Global,
    bench: Bench,
    out: &str,
    scripts: Vec<Script>,
    order: Order,
) -> Result<Work, Status>
    requires few { length scripts.items ≤ session_limit }
    requires short { All IsShortScript scripts.items }
    requires order { IsOrder (quotas_of_scripts scripts.items) order }
    ensures run { IfOk result (λ work. task_of work ≡ run_task bench out.now scripts.items order) }
    ensures status { IfErr result (λ status. status ≡ Status.NoMemory) }
{
    let book = Book::of_bench(alloc, bench);
    let (book, transcripts) = replay(rt, alloc, book, scripts, order.as_slice())?.into_parts();
    drop(order);
    Ok(work_of(alloc, out, book, transcripts)?)
}
